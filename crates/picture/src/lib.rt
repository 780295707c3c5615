// A picture's sizes, pixels and edge rules, and the checks that several entries share.
#![tactic(auto)]

ghost use Rattle.std.specs.Prelude.{◌≡◌, false};
ghost use Rattle.picture.specs.Sizes.{full_size, level_zero, half_level, full_bytes, level_bytes, FullSized, Sized};
ghost use Rattle.picture.specs.Modes.{mode_of};
ghost use Rattle.picture.specs.Refusal.{wrong_sides};

mod buffers;
mod checks;

pub use buffers::{clear, move_bytes};
pub use checks::{
    Refusal, check_picture, number_of, refuse_if, sides_outside, too_deep, too_short, wrong_edge,
    wrong_length, wrong_sides, wrong_taps, zero_or_above,
};

// The largest side of a picture, the most taps of a kernel and the most decimations.
pub const MAX_SIDE: usize = 16384;

pub const MAX_TAPS: usize = 33;

pub const MAX_DECIMATIONS: u32 = 14;

// A size in full pixels.
#[derive(Clone, Copy)]
pub struct FullSize {
    w: usize,
    h: usize,
}

// A size in one level's pixels.
#[derive(Clone, Copy)]
pub struct LevelSize {
    w: usize,
    h: usize,
}

// One pixel, premultiplied.
#[derive(Clone, Copy)]
pub struct Pixel {
    pub r: u8,
    pub g: u8,
    pub b: u8,
    pub a: u8,
}

// What a picture is beyond its borders.
#[derive(Clone, Copy)]
pub enum EdgeMode {
    Duplicate,
    Wrap,
    Mirror,
    None,
}

// A full size is made from checked sides alone.
pub fn full_size(w: u32, h: u32) -> FullSize
    requires { wrong_sides w h ≡ false }
    ensures { result ≡ full_size w h }
{
    FullSize {
        w: w as usize,
        h: h as usize,
    }
}

impl FullSize {
    // A level's size is made from the full size, as level 0, ..
    pub fn level_zero(self) -> LevelSize
        ensures { result ≡ level_zero self }
    {
        LevelSize {
            w: self.w,
            h: self.h,
        }
    }

    pub fn width(self) -> usize
        ensures { result ≡ self.w }
    {
        self.w
    }

    pub fn height(self) -> usize
        ensures { result ≡ self.h }
    {
        self.h
    }

    // How many bytes a picture of this size has.
    pub fn bytes(self) -> usize
        requires { FullSized self }
        ensures { result ≡ full_bytes self }
    {
        4 * (self.w * self.h)
    }
}

impl LevelSize {
    // .. or by halving another level's, upward.
    pub fn half(self) -> LevelSize
        requires { Sized self }
        ensures { result ≡ half_level self }
    {
        LevelSize {
            w: (self.w + 1) / 2,
            h: (self.h + 1) / 2,
        }
    }

    pub fn width(self) -> usize
        ensures { result ≡ self.w }
    {
        self.w
    }

    pub fn height(self) -> usize
        ensures { result ≡ self.h }
    {
        self.h
    }

    // How many bytes a level of this size has.
    pub fn bytes(self) -> usize
        requires { Sized self }
        ensures { result ≡ level_bytes self }
    {
        4 * (self.w * self.h)
    }
}

// The edge rule of a number; check 9 refuses those above 3.
#[tactic(auto, unfolding(crate::specs::Modes::mode_of))]
pub fn edge_mode(edge: u32) -> EdgeMode
    ensures { result ≡ mode_of edge }
{
    match edge {
        0 => EdgeMode::Duplicate,
        1 => EdgeMode::Wrap,
        2 => EdgeMode::Mirror,
        _ => EdgeMode::None,
    }
}
