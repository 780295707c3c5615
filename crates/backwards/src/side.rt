// One side of a level, counted in that level's pixels: a kind of its own.
ghost use Rattle.std.specs.Prelude.{◌≡◌, ◌≤◌};
ghost use Rattle.picture.specs.Sizes.{side_room, half};

use picture::FullSize;

// A side in one level's pixels.
#[derive(Clone, Copy)]
pub struct LevelSide {
    s: usize,
}

// It is made from a full size, along the rows ..
pub fn across(size: FullSize) -> LevelSide
    ensures { result.s ≡ size.w }
{
    LevelSide { s: size.width() }
}

// .. or along the columns, ..
pub fn down(size: FullSize) -> LevelSide
    ensures { result.s ≡ size.h }
{
    LevelSide { s: size.height() }
}

impl LevelSide {
    // .. or by halving another level's, upward.
    pub fn half(self) -> LevelSide
        requires { self.s ≤ side_room }
        ensures { result.s ≡ half self.s }
    {
        LevelSide {
            s: (self.s + 1) / 2,
        }
    }

    pub fn length(self) -> usize
        ensures { result ≡ self.s }
    {
        self.s
    }
}
