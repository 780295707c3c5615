// One body of a plate, blurred where it lies inside the lent file.
#![tactic(auto)]

ghost use Rattle.std.specs.Prelude.{◌≡◌};
ghost use Rattle.picture.specs.Planes.{bytes_of, cleared};
ghost use Rattle.picture.specs.Answer.{lent};
ghost use Rattle.body_blur.specs.Blur.{plate_blur};
ghost use Rattle.body_blur.specs.Steps.{BodyFits, BodyReady, Blurred};

// Blurs one body, lent by itself, as the job does: weights 1/4, 1/2, 1/4, n = 1, strength 1, edge 0 (Duplicate).
fn blur_part(part: &mut [u8], w: u32, h: u32, scratch: &mut [u8])
    requires { BodyFits w h part.old scratch.old }
    ensures { lent part.new scratch.new ≡ lent (plate_blur w h part.old) (cleared (bytes_of w h) scratch.old) }
{
    let weights = [0.25, 0.5, 0.25];
    // No refusal fits a body that does.
    let _ = gaussian_blur::blur(part, w, h, scratch, &weights, 1, 1.0, 0);
}

// Blurs body i where it lies, from this start on, and answers where it ends.
pub fn blur_body(plate: &mut [u8], i: usize, start: usize, scratch: &mut [u8]) -> usize
    requires { BodyReady plate.old i start scratch.old }
    ensures { Blurred plate_blur plate.old i start scratch.old result plate.new scratch.new }
{
    let e = plate_format::read_entry(plate, i);
    let end = start + e.length as usize;
    blur_part(
        &mut plate[start..end],
        e.width as u32,
        e.height as u32,
        scratch,
    );
    end
}
