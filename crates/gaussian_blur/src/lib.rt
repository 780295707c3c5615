// The Gaussian blur with decimation: apply_blur, and the entry `blur`.
#![tactic(auto)]

ghost use Rattle.std.specs.Prelude.{◌≡◌, length};
ghost use Rattle.picture.specs.Planes.{bytes_of, cleared};
ghost use Rattle.picture.specs.Sizes.{Sized, FullSized};
ghost use Rattle.picture.specs.Refusal.{number_of, first_of};
ghost use Rattle.picture.specs.Answer.{answered, lent};
ghost use Rattle.passes.specs.Forms.{form_bytes, Formed};
ghost use Rattle.passes.specs.Kernel.{Kernel};
ghost use Rattle.gaussian_blur.specs.Blurred.{blurred_form};
ghost use Rattle.gaussian_blur.specs.Needs.{BlurReady, BlurAccepted};
ghost use Rattle.gaussian_blur.specs.Outcome.{kernel_checks, blur_checks, blurred_or_kept, form_or_kept, blur_outcome};

use passes::Form;
use picture::{EdgeMode, FullSize, LevelSize, Refusal, refuse_if};

// Halves, blurs with one decimation fewer, and doubles, in any form; with none left it convolves.
pub fn apply_blur(
    picture: &mut [u8],
    scratch: &mut [u8],
    s: LevelSize,
    form: Form,
    n: u32,
    weights: &[f32],
    mode: EdgeMode,
)
    requires { (Formed form) × ((Sized s) × ((length picture.old ≡ form_bytes form s.w s.h) × ((length scratch.old ≡ form_bytes form s.w s.h) × (Kernel weights.now)))) }
    ensures { picture.new ≡ blurred_form form mode weights.now n s.w s.h picture.old }
{
    if n == 0 {
        convolve::convolve_form(picture, scratch, s, form, weights, mode);
    } else {
        let t = s.half();
        let k = passes::form_bytes(form, t);
        decimate::halve_form(picture, scratch, s, form, mode);
        apply_blur(
            &mut picture[..k],
            &mut scratch[..k],
            t,
            form,
            n - 1,
            weights,
            mode,
        );
        decimate::double_form(picture, scratch, s, form, mode);
    }
}

// Blurs bytes in any form where the strength is above zero, and else leaves them as they are.
pub fn blur_form(
    bytes: &mut [u8],
    scratch: &mut [u8],
    size: FullSize,
    form: Form,
    n: u32,
    weights: &[f32],
    mode: EdgeMode,
    strength: f32,
)
    requires fact_1 { Formed form }
    requires fact_2 { FullSized size }
    requires fact_3 { length bytes.old ≡ form_bytes form size.w size.h }
    requires fact_4 { length scratch.old ≡ form_bytes form size.w size.h }
    requires fact_5 { Kernel weights.now }
    ensures { bytes.new ≡ form_or_kept form mode weights.now n strength size.w size.h bytes.old }
{
    if 0.0 < strength {
        apply_blur(bytes, scratch, size.level_zero(), form, n, weights, mode);
    }
}

// Blurs where the strength is above zero, and else leaves the picture as it is.
pub fn blur_or_keep(
    picture: &mut [u8],
    scratch: &mut [u8],
    size: FullSize,
    n: u32,
    weights: &[f32],
    mode: EdgeMode,
    strength: f32,
)
    requires { BlurReady size.w size.h picture.old scratch.old weights.now }
    ensures { picture.new ≡ blurred_or_kept mode weights.now n strength size.w size.h picture.old }
{
    blur_form(
        picture,
        scratch,
        size,
        Form::PIXELS,
        n,
        weights,
        mode,
        strength,
    );
}

// Checks 4 and 5, of a kernel.
#[tactic(auto, unfolding(picture::specs::Refusal::number_of, picture::specs::Refusal::number, picture::specs::Refusal::first_of, picture::specs::Refusal::first_else))]
pub fn check_kernel(weights: &[f32]) -> Result<(), Refusal>
    ensures { number_of result ≡ first_of (kernel_checks weights.now) }
{
    refuse_if(picture::wrong_taps(weights.len()), Refusal::WrongTaps)?;
    refuse_if(binary32::any_outside(weights), Refusal::WrongWeight)
}

// The first of refusals 1 to 7 and 9 that fits; of the buffers' lengths.
#[tactic(auto, unfolding(picture::specs::Refusal::number_of, picture::specs::Refusal::number, picture::specs::Refusal::first_of, picture::specs::Refusal::first_else))]
pub fn check_blur(
    picture: usize,
    w: u32,
    h: u32,
    scratch: usize,
    weights: &[f32],
    n: u32,
    strength: f32,
    edge: u32,
) -> Result<(), Refusal>
    ensures { number_of result ≡ first_of (blur_checks picture w h scratch weights.now n strength edge) }
{
    picture::check_picture(picture, w, h)?;
    refuse_if(picture::too_short(scratch, w, h), Refusal::TooShort)?;
    check_kernel(weights)?;
    refuse_if(picture::too_deep(n), Refusal::TooDeep)?;
    refuse_if(!binary32::is_finite(strength), Refusal::NotFinite)?;
    refuse_if(picture::wrong_edge(edge), Refusal::WrongEdge)
}

// An accepted call: the picture blurred or kept, and the scratch zero where it was used.
fn blur_accepted(
    picture: &mut [u8],
    scratch: &mut [u8],
    size: FullSize,
    n: u32,
    weights: &[f32],
    mode: EdgeMode,
    strength: f32,
)
    requires { BlurAccepted size.w size.h picture.old scratch.old weights.now }
    ensures { lent picture.new scratch.new ≡ lent (blurred_or_kept mode weights.now n strength size.w size.h picture.old) (cleared (bytes_of size.w size.h) scratch.old) }
{
    let k = size.bytes();
    blur_or_keep(picture, &mut scratch[..k], size, n, weights, mode, strength);
    picture::clear(scratch, k);
}

// Blurs a picture of w by h pixels where nothing is refused.
pub fn blur(
    picture: &mut [u8],
    w: u32,
    h: u32,
    scratch: &mut [u8],
    weights: &[f32],
    n: u32,
    strength: f32,
    edge: u32,
) -> Result<(), Refusal>
    ensures { answered (number_of result) (lent picture.new scratch.new) ≡ blur_outcome picture.old w h scratch.old weights.now n strength edge }
{
    check_blur(
        picture.len(),
        w,
        h,
        scratch.len(),
        weights,
        n,
        strength,
        edge,
    )?;
    let size = picture::full_size(w, h);
    let mode = picture::edge_mode(edge);
    blur_accepted(picture, scratch, size, n, weights, mode, strength);
    Ok(())
}
