// The line passes and the blur as definitions and laws, and how a picture's bytes lie; the code that makes the passes is in the crates above.
#![tactic(auto)]

ghost use Rattle.std.specs.Prelude.{◌≡◌};
ghost use Rattle.picture.specs.Sizes.{Sized};
ghost use Rattle.passes.specs.Forms.{form_bytes, Formed};

use picture::LevelSize;

// How a picture's bytes lie: so many planes one after the other, each of elements of so many bytes. A picture of pixels is one plane of
// elements of four bytes; as planes it is four of single bytes.
#[derive(Clone, Copy)]
pub struct Form {
    pub planes: usize,
    pub lanes: usize,
}

impl Form {
    // A picture of pixels, its four planes, and one plane.
    pub const PIXELS: Form = Form {
        planes: 1,
        lanes: 4,
    };

    pub const PLANES: Form = Form {
        planes: 4,
        lanes: 1,
    };

    pub const PLANE: Form = Form {
        planes: 1,
        lanes: 1,
    };
}

// How many bytes a level has in a form.
pub fn form_bytes(form: Form, s: LevelSize) -> usize
    requires fact_1 { Formed form }
    requires fact_2 { Sized s }
    ensures { result ≡ form_bytes form s.w s.h }
{
    let w = s.width();
    let h = s.height();
    form.planes * (h * (w * form.lanes))
}
