// Blur, shift and shadow for C.
ghost use Rattle.std.specs.Prelude.{◌≡◌};
ghost use Rattle.picture.specs.Answer.{answered, lent, lent_copy};
ghost use Rattle.gaussian_blur.specs.Outcome as blurring;
ghost use Rattle.shift.specs.Outcome as shifting;
ghost use Rattle.drop_shadow.specs.Outcome as shadowing;
ghost use Rattle.face_filters.specs.Words.{recipe, flag};

use drop_shadow::Recipe;

// Blurs a picture of w by h pixels, as `blur` does.
#[unsafe(no_mangle)]
pub extern "C" fn corbelrush_blur(
    picture: &mut [u8],
    w: u32,
    h: u32,
    scratch: &mut [u8],
    weights: &[f32],
    n: u32,
    strength: f32,
    edge: u32,
) -> u32
    ensures { answered result (lent picture.new scratch.new) ≡ blurring.blur_outcome picture.old w h scratch.old weights.now n strength edge }
{
    picture::number_of(gaussian_blur::blur(picture, w, h, scratch, weights, n, strength, edge))
}

// Moves a picture of w by h pixels by dx and dy, as `shift` does.
#[unsafe(no_mangle)]
pub extern "C" fn corbelrush_shift(picture: &mut [u8], w: u32, h: u32, dx: f32, dy: f32) -> u32
    ensures { answered result picture.new ≡ shifting.shift_outcome picture.old w h dx dy }
{
    picture::number_of(shift::shift(picture, w, h, dx, dy))
}

// Casts the shadow of a picture of w by h pixels, as `shadow` does.
#[unsafe(no_mangle)]
pub extern "C" fn corbelrush_shadow(
    picture: &mut [u8],
    w: u32,
    h: u32,
    scratch: &mut [u8],
    copy: &mut [u8],
    weights: &[f32],
    n: u32,
    edge: u32,
    dx: f32,
    dy: f32,
    strength: f32,
    red: f32,
    green: f32,
    blue: f32,
    alpha: f32,
    composite: u32,
) -> u32
    ensures { answered result (lent_copy picture.new scratch.new copy.new) ≡ shadowing.shadow_outcome picture.old w h scratch.old copy.old weights.now n edge (recipe dx dy strength red green blue alpha) (flag composite) }
{
    let recipe = Recipe {
        dx,
        dy,
        strength,
        red,
        green,
        blue,
        alpha,
    };
    picture::number_of(drop_shadow::shadow(
        picture,
        w,
        h,
        scratch,
        copy,
        weights,
        n,
        edge,
        recipe,
        composite != 0,
    ))
}
