// The shadow on four planes, with the refusals of that on a picture: alpha's plane alone is shifted and blurred.
#![tactic(auto)]

ghost use Rattle.std.specs.Prelude.{◌≡◌, ◌*◌, ◌<◌, length};
ghost use Rattle.picture.specs.Planes.{cleared};
ghost use Rattle.picture.specs.Sizes.{full_bytes};
ghost use Rattle.picture.specs.Refusal.{number_of};
ghost use Rattle.picture.specs.Answer.{answered, lent_copy};
ghost use Rattle.planes.specs.Planar.{plane_of, painted_planes, on_planes};
ghost use Rattle.composite.specs.Shadow.{InUnit};
ghost use Rattle.composite.specs.Plane.{plane_in, tint_on, shadow_on};
ghost use Rattle.drop_shadow.specs.Cast.{shadowed_by};
ghost use Rattle.drop_shadow.specs.Needs.{ShadowReady, ShadowAccepted};
ghost use Rattle.plane_shadow.specs.Places.{pixel_in, with_pixel_in, Alphas};
ghost use Rattle.plane_shadow.specs.Outcome.{shadow_planes_outcome};

use composite::{Colour, Tint};
use drop_shadow::{Casting, Recipe};
use picture::{FullSize, Pixel, Refusal};

// Pixel i of four planes of n.
fn pixel_in(planes: &[u8], n: usize, i: usize) -> Pixel
    requires fact_1 { length planes.now ≡ 4 * n }
    requires fact_2 { i < n }
    ensures { result ≡ pixel_in n planes.now i }
{
    Pixel {
        r: planes[i],
        g: planes[n + i],
        b: planes[2 * n + i],
        a: planes[3 * n + i],
    }
}

// Writes pixel i of four planes of n.
fn set_pixel_in(planes: &mut [u8], n: usize, i: usize, p: Pixel)
    requires fact_1 { length planes.old ≡ 4 * n }
    requires fact_2 { i < n }
    ensures { planes.new ≡ with_pixel_in n planes.old i p }
{
    planes[i] = p.r;
    planes[n + i] = p.g;
    planes[2 * n + i] = p.b;
    planes[3 * n + i] = p.a;
}

// The planes over a shadow of this tint and these alphas, or that shadow alone, all four in one pass over the pixels. Which of them is a
// constant of the loop. It is the picture's loop, in composite; a trait of where a pixel lies would ask both forms' laws of its members, for
// these four lines.
fn lay_planes<const COMPOSITE: bool>(planes: &mut [u8], size: FullSize, alphas: &[u8], tint: Tint)
    requires { Alphas size planes.old alphas.now }
    ensures { planes.new ≡ painted_planes size.w size.h (tint_on COMPOSITE tint (plane_of planes.old size.w size.h) (plane_in alphas.now size.w)) }
{
    let n = size.bytes() / 4;
    for i in 0..n {
        let shadow = composite::tinted_pixel(tint, alphas[i]);
        let out = composite::pixel_over::<COMPOSITE>(pixel_in(planes, n, i), shadow);
        set_pixel_in(planes, n, i, out);
    }
}

// Colours the shadow that a plane of alphas casts, and lays the planes over it where that is wanted.
fn write_plane_shadow(
    plane: &mut [u8],
    planes: &mut [u8],
    size: FullSize,
    colour: Colour,
    composite: bool,
)
    requires fact_1 { Alphas size planes.old plane.old }
    requires fact_2 { InUnit colour }
    ensures { planes.new ≡ painted_planes size.w size.h (shadow_on composite colour (plane_of planes.old size.w size.h) (plane_in plane.old size.w)) }
{
    composite::shadow_alphas(plane, colour.alpha);
    let tint = composite::tint_of(colour);
    if composite {
        lay_planes::<true>(planes, size, plane, tint);
    } else {
        lay_planes::<false>(planes, size, plane, tint);
    }
}

// Copies alpha's plane, casts it as a shadow, colours it, and lays the planes over it.
fn apply_shadow_planes(
    planes: &mut [u8],
    scratch: &mut [u8],
    plane: &mut [u8],
    weights: &[f32],
    cast: Casting,
)
    requires fact_1 { ShadowReady cast.size scratch.old plane.old weights.now cast.recipe }
    requires fact_2 { length planes.old ≡ full_bytes cast.size }
    ensures { planes.new ≡ on_planes cast.size.w cast.size.h (shadowed_by cast weights.now) planes.old }
{
    let area = plane.len();
    pixels::copy_bytes(plane, &planes[3 * area..4 * area]);
    drop_shadow::cast_plane(plane, scratch, weights, cast);
    let colour = Colour::from(cast.recipe);
    write_plane_shadow(plane, planes, cast.size, colour, cast.composite);
}

// An accepted call: the planes with their shadow, and the work buffers zero where they were used.
fn shadow_planes_accepted(
    planes: &mut [u8],
    scratch: &mut [u8],
    copy: &mut [u8],
    weights: &[f32],
    cast: Casting,
)
    requires { ShadowAccepted cast.size planes.old scratch.old copy.old weights.now cast.recipe }
    ensures { lent_copy planes.new scratch.new copy.new ≡ lent_copy (on_planes cast.size.w cast.size.h (shadowed_by cast weights.now) planes.old) (cleared (full_bytes cast.size) scratch.old) (cleared (full_bytes cast.size) copy.old) }
{
    let size = cast.size;
    let k = size.bytes();
    let area = k / 4;
    apply_shadow_planes(
        planes,
        &mut scratch[..area],
        &mut copy[..area],
        weights,
        cast,
    );
    picture::clear(scratch, k);
    picture::clear(copy, k);
}

// Casts the shadow of four planes of w by h where nothing is refused, and lays the planes over it where `composite` says so.
pub fn shadow_planes(
    planes: &mut [u8],
    w: u32,
    h: u32,
    scratch: &mut [u8],
    copy: &mut [u8],
    weights: &[f32],
    n: u32,
    edge: u32,
    recipe: Recipe,
    composite: bool,
) -> Result<(), Refusal>
    ensures { answered (number_of result) (lent_copy planes.new scratch.new copy.new) ≡ shadow_planes_outcome planes.old w h scratch.old copy.old weights.now n edge recipe composite }
{
    drop_shadow::check_shadow(
        planes.len(),
        w,
        h,
        scratch.len(),
        copy.len(),
        weights,
        n,
        edge,
        recipe,
    )?;
    let cast = drop_shadow::casting_of(w, h, n, edge, recipe, composite);
    shadow_planes_accepted(planes, scratch, copy, weights, cast);
    Ok(())
}
