// Four planes as C and C++ link them: each function is one call of its entry; include/corbelrush.h declares them.
#![tactic(auto)]

ghost use Rattle.std.specs.Prelude.{◌≡◌};
ghost use Rattle.picture.specs.Answer.{answered, lent, lent_copy};
ghost use Rattle.planes.specs.Outcome.{to_planes_outcome, from_planes_outcome};
ghost use Rattle.plane_shift.specs.Shifted.{shift_planes_outcome};
ghost use Rattle.plane_blur.specs.Outcome.{blur_planes_outcome};
ghost use Rattle.plane_shadow.specs.Outcome.{shadow_planes_outcome};
ghost use Rattle.face_filters.specs.Words.{recipe, flag};

use drop_shadow::Recipe;

// The planes of a picture of w by h pixels, as `to_planes` writes them.
#[unsafe(no_mangle)]
pub extern "C" fn corbelrush_to_planes(src: &[u8], w: u32, h: u32, dst: &mut [u8]) -> u32
    ensures { answered result dst.new ≡ to_planes_outcome src.now w h dst.old }
{
    picture::number_of(planes::to_planes(src, w, h, dst))
}

// The picture of four planes of w by h, as `from_planes` writes it.
#[unsafe(no_mangle)]
pub extern "C" fn corbelrush_from_planes(src: &[u8], w: u32, h: u32, dst: &mut [u8]) -> u32
    ensures { answered result dst.new ≡ from_planes_outcome src.now w h dst.old }
{
    picture::number_of(planes::from_planes(src, w, h, dst))
}

// Blurs four planes of w by h, as `blur_planes` does.
#[unsafe(no_mangle)]
pub extern "C" fn corbelrush_blur_planes(
    planes: &mut [u8],
    w: u32,
    h: u32,
    scratch: &mut [u8],
    weights: &[f32],
    n: u32,
    strength: f32,
    edge: u32,
) -> u32
    ensures { answered result (lent planes.new scratch.new) ≡ blur_planes_outcome planes.old w h scratch.old weights.now n strength edge }
{
    picture::number_of(plane_blur::blur_planes(planes, w, h, scratch, weights, n, strength, edge))
}

// Moves four planes of w by h by dx and dy, as `shift_planes` does.
#[unsafe(no_mangle)]
pub extern "C" fn corbelrush_shift_planes(
    planes: &mut [u8],
    w: u32,
    h: u32,
    dx: f32,
    dy: f32,
) -> u32
    ensures { answered result planes.new ≡ shift_planes_outcome planes.old w h dx dy }
{
    picture::number_of(plane_shift::shift_planes(planes, w, h, dx, dy))
}

// Casts the shadow of four planes of w by h, as `shadow_planes` does.
#[unsafe(no_mangle)]
pub extern "C" fn corbelrush_shadow_planes(
    planes: &mut [u8],
    w: u32,
    h: u32,
    scratch: &mut [u8],
    copy: &mut [u8],
    weights: &[f32],
    n: u32,
    edge: u32,
    dx: f32,
    dy: f32,
    strength: f32,
    red: f32,
    green: f32,
    blue: f32,
    alpha: f32,
    composite: u32,
) -> u32
    ensures { answered result (lent_copy planes.new scratch.new copy.new) ≡ shadow_planes_outcome planes.old w h scratch.old copy.old weights.now n edge (recipe dx dy strength red green blue alpha) (flag composite) }
{
    let recipe = Recipe {
        dx,
        dy,
        strength,
        red,
        green,
        blue,
        alpha,
    };
    picture::number_of(plane_shadow::shadow_planes(
        planes,
        w,
        h,
        scratch,
        copy,
        weights,
        n,
        edge,
        recipe,
        composite != 0,
    ))
}
