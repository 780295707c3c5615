// The blur on four planes, with the refusals of that on a picture.
#![tactic(auto)]

ghost use Rattle.std.specs.Prelude.{◌≡◌};
ghost use Rattle.picture.specs.Planes.{bytes_of, cleared};
ghost use Rattle.picture.specs.Refusal.{number_of};
ghost use Rattle.picture.specs.Answer.{answered, lent};
ghost use Rattle.planes.specs.Planar.{on_planes};
ghost use Rattle.gaussian_blur.specs.Needs.{BlurReady, BlurAccepted};
ghost use Rattle.gaussian_blur.specs.Outcome.{blurred_or_kept};
ghost use Rattle.plane_blur.specs.Outcome.{blur_planes_outcome};

use passes::Form;
use picture::{EdgeMode, FullSize, Refusal};

// Planes of fewer bytes to a row are converted: line by line they cost more, up to 1.44 of a picture's blur at 16 square and 1.08 at 128, and with
// two decimations 2.44 and 1.32; at 256 square it is 1.03 and 1.07, where converting takes 1.02 and 1.12.
const WIDE: usize = 256;

// Blurs planes as the picture that they are: it is made in the scratch, with the planes' own bytes as its scratch.
fn blur_converted(
    planes: &mut [u8],
    scratch: &mut [u8],
    size: FullSize,
    n: u32,
    weights: &[f32],
    mode: EdgeMode,
    strength: f32,
)
    requires { BlurReady size.w size.h planes.old scratch.old weights.now }
    ensures { planes.new ≡ on_planes size.w size.h (blurred_or_kept mode weights.now n strength size.w size.h) planes.old }
{
    planes::join(planes, scratch, size);
    gaussian_blur::blur_or_keep(scratch, planes, size, n, weights, mode, strength);
    planes::split(scratch, planes, size);
}

// Blurs planes or leaves them as they are: narrow ones as a picture, and others where they lie.
fn apply_blur_planes(
    planes: &mut [u8],
    scratch: &mut [u8],
    size: FullSize,
    n: u32,
    weights: &[f32],
    mode: EdgeMode,
    strength: f32,
)
    requires { BlurReady size.w size.h planes.old scratch.old weights.now }
    ensures { planes.new ≡ on_planes size.w size.h (blurred_or_kept mode weights.now n strength size.w size.h) planes.old }
{
    if size.width() < WIDE {
        blur_converted(planes, scratch, size, n, weights, mode, strength);
    } else {
        let form = Form::PLANES;
        gaussian_blur::blur_form(planes, scratch, size, form, n, weights, mode, strength);
    }
}

// An accepted call: the planes blurred or kept, and the scratch zero where it was used.
fn blur_planes_accepted(
    planes: &mut [u8],
    scratch: &mut [u8],
    size: FullSize,
    n: u32,
    weights: &[f32],
    mode: EdgeMode,
    strength: f32,
)
    requires { BlurAccepted size.w size.h planes.old scratch.old weights.now }
    ensures { lent planes.new scratch.new ≡ lent (on_planes size.w size.h (blurred_or_kept mode weights.now n strength size.w size.h) planes.old) (cleared (bytes_of size.w size.h) scratch.old) }
{
    let k = size.bytes();
    apply_blur_planes(planes, &mut scratch[..k], size, n, weights, mode, strength);
    picture::clear(scratch, k);
}

// Blurs four planes of w by h where nothing is refused.
pub fn blur_planes(
    planes: &mut [u8],
    w: u32,
    h: u32,
    scratch: &mut [u8],
    weights: &[f32],
    n: u32,
    strength: f32,
    edge: u32,
) -> Result<(), Refusal>
    ensures { answered (number_of result) (lent planes.new scratch.new) ≡ blur_planes_outcome planes.old w h scratch.old weights.now n strength edge }
{
    gaussian_blur::check_blur(
        planes.len(),
        w,
        h,
        scratch.len(),
        weights,
        n,
        strength,
        edge,
    )?;
    let size = picture::full_size(w, h);
    let mode = picture::edge_mode(edge);
    blur_planes_accepted(planes, scratch, size, n, weights, mode, strength);
    Ok(())
}
