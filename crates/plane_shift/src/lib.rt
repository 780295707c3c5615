// The shift on four planes, with the refusals of that on a picture: each plane is moved by itself, where it lies.
#![tactic(auto)]

ghost use Rattle.std.specs.Prelude.{◌≡◌};
ghost use Rattle.picture.specs.Refusal.{number_of};
ghost use Rattle.picture.specs.Answer.{answered};
ghost use Rattle.binary32.specs.Round.{whole_offset};
ghost use Rattle.planes.specs.Planar.{on_planes};
ghost use Rattle.shift.specs.Shift.{shifted_picture};
ghost use Rattle.shift.specs.Outcome.{ShiftReady};
ghost use Rattle.plane_shift.specs.Shifted.{shift_planes_outcome};

use picture::{FullSize, Refusal};

// Moves four planes by dx and dy, each rounded to whole pixels: plane after plane, where they lie.
fn offset_planes(planes: &mut [u8], size: FullSize, dx: f32, dy: f32)
    requires { ShiftReady size planes.old dx dy }
    ensures { planes.new ≡ on_planes size.w size.h (shifted_picture (whole_offset dx) (whole_offset dy) size.w size.h) planes.old }
{
    let n = planes.len() / 4;
    for c in 0..4 {
        let start = c * n;
        shift::offset_plane(&mut planes[start..start + n], size, dx, dy);
    }
}

// Moves four planes of w by h by dx and dy, rounded to whole pixels.
pub fn shift_planes(planes: &mut [u8], w: u32, h: u32, dx: f32, dy: f32) -> Result<(), Refusal>
    ensures { answered (number_of result) planes.new ≡ shift_planes_outcome planes.old w h dx dy }
{
    shift::check_shift(planes.len(), w, h, dx, dy)?;
    offset_planes(planes, picture::full_size(w, h), dx, dy);
    Ok(())
}
