// The coloured shadow, and the original over it.
#![tactic(auto)]

ghost use Rattle.std.specs.Prelude.{◌≡◌, T, cond, length, false, ◌*◌};
ghost use Rattle.std.specs.Float.{binary32};
ghost use Rattle.std.specs.Float.Ieee.{mul};
ghost use Rattle.picture.specs.Build.{build};
ghost use Rattle.picture.specs.Planes.{chan, painted};
ghost use Rattle.picture.specs.Sizes.{Pictured};
ghost use Rattle.binary32.specs.Ranges.{outside_unit, nonneg};
ghost use Rattle.binary32.specs.Round.{top32};
ghost use Rattle.composite.specs.Channels.{norm, norm_byte, at_most_one, shadow_alpha, over};
ghost use Rattle.pixels.specs.Pixels.{pixel};
ghost use Rattle.composite.specs.Shadow.{InUnit, over_pixel};
ghost use Rattle.composite.specs.Plane.{plane_in, alphas_in, through, shadow_alphas, tint_of, tinted_by, tint_on, shadow_on};

use picture::{FullSize, Pixel};
use pixels::{pixel_at, premultiply, set_pixel, wide};

// A colour, its components from 0 to 1.
#[derive(Clone, Copy)]
pub struct Colour {
    pub red: f32,
    pub green: f32,
    pub blue: f32,
    pub alpha: f32,
}

// A colour's channels as bytes, which an alpha multiplies.
#[derive(Clone, Copy)]
pub struct Tint {
    pub red: u8,
    pub green: u8,
    pub blue: u8,
}

fn norm(value: u8) -> f32
    ensures { result ≡ norm value }
{
    value as f32 / 255.0
}

// A value from 0 to 1 as a byte. The product may be minus zero.
fn norm_to_u8(x: f32) -> u8
    requires { T (nonneg (mul binary32 x top32)) }
    ensures { result ≡ norm_byte x }
{
    binary32::round_channel(x * 255.0)
}

fn at_most_one(x: f32) -> f32
    ensures { result ≡ at_most_one x }
{
    if x < 1.0 { x } else { 1.0 }
}

// The shadow's alpha where the copy has this one.
fn shadow_alpha(colour: f32, alpha: u8) -> u8
    requires { outside_unit colour ≡ false }
    ensures { result ≡ shadow_alpha colour alpha }
{
    let x = norm(alpha) * colour;
    norm_to_u8(at_most_one(x))
}

// In whole numbers: the binary32 rule gives the same for all bytes.
fn src_over_channel(src: u8, dst: u8, alpha: u8) -> u8
    ensures { result ≡ over src dst alpha }
{
    let sum = wide(src) + (wide(dst) * (255 - wide(alpha)) + 127) / 255;
    sum.min(255) as u8
}

// One pixel over another.
pub fn compose_src_over(src: Pixel, dst: Pixel) -> Pixel
    ensures { result ≡ over_pixel src dst }
{
    Pixel {
        r: src_over_channel(src.r, dst.r, src.a),
        g: src_over_channel(src.g, dst.g, src.a),
        b: src_over_channel(src.b, dst.b, src.a),
        a: src_over_channel(src.a, dst.a, src.a),
    }
}

// The alphas of a picture, as a plane.
pub fn take_alphas(plane: &mut [u8], picture: &[u8])
    requires { length picture.now ≡ 4 * length plane.old }
    ensures { plane.new ≡ alphas_in (length plane.old) picture.now }
{
    for (i, alpha) in plane.iter_mut().enumerate() {
        *alpha = picture[4 * i + 3];
    }
}

// The shadow's alpha for each of a plane's: 256, made once for a call.
fn alpha_table(table: &mut [u8], colour: f32)
    requires fact_1 { length table.old ≡ 256 }
    requires fact_2 { outside_unit colour ≡ false }
    ensures { table.new ≡ build 256 (shadow_alpha colour) }
{
    for (i, entry) in table.iter_mut().enumerate() {
        *entry = shadow_alpha(colour, i as u8);
    }
}

// Puts the table's byte in the place of each.
fn pass_through(plane: &mut [u8], table: &[u8])
    requires { length table.now ≡ 256 }
    ensures { plane.new ≡ through table.now plane.old }
{
    for alpha in plane.iter_mut() {
        *alpha = table[usize::from(*alpha)];
    }
}

// Makes the shadow's alphas of those that cast it.
pub fn shadow_alphas(plane: &mut [u8], colour: f32)
    requires { outside_unit colour ≡ false }
    ensures { plane.new ≡ shadow_alphas colour plane.old }
{
    let mut table = [0u8; 256];
    alpha_table(&mut table, colour);
    pass_through(plane, &table);
}

pub fn tint_of(colour: Colour) -> Tint
    requires { InUnit colour }
    ensures { result ≡ tint_of colour }
{
    Tint {
        red: norm_to_u8(colour.red),
        green: norm_to_u8(colour.green),
        blue: norm_to_u8(colour.blue),
    }
}

// The pixel of a tint that has this alpha.
pub fn tinted_pixel(tint: Tint, alpha: u8) -> Pixel
    ensures { result ≡ pixel (tinted_by tint alpha) }
{
    Pixel {
        r: premultiply(tint.red, alpha),
        g: premultiply(tint.green, alpha),
        b: premultiply(tint.blue, alpha),
        a: alpha,
    }
}

// A pixel over the shadow's, or the shadow's alone.
pub fn pixel_over<const COMPOSITE: bool>(pixel: Pixel, shadow: Pixel) -> Pixel
    ensures { result ≡ cond COMPOSITE (over_pixel pixel shadow) shadow }
{
    if COMPOSITE {
        compose_src_over(pixel, shadow)
    } else {
        shadow
    }
}

// The picture over a shadow of this tint and these alphas, or that shadow alone, pixel by pixel. Which of them is a constant of the loop.
fn lay_pixels<const COMPOSITE: bool>(picture: &mut [u8], size: FullSize, alphas: &[u8], tint: Tint)
    requires fact_1 { Pictured size.w size.h picture.old }
    requires fact_2 { length alphas.now ≡ size.w * size.h }
    ensures { picture.new ≡ painted size.w size.h (tint_on COMPOSITE tint (chan picture.old size.w) (plane_in alphas.now size.w)) }
{
    for i in 0..size.bytes() / 4 {
        let out = pixel_over::<COMPOSITE>(pixel_at(picture, i), tinted_pixel(tint, alphas[i]));
        set_pixel(picture, i, out);
    }
}

// Colours the shadow that a plane of alphas casts, and lays the original over it where that is wanted.
pub fn write_colored_shadow(
    plane: &mut [u8],
    picture: &mut [u8],
    size: FullSize,
    colour: Colour,
    composite: bool,
)
    requires fact_1 { length plane.old ≡ size.w * size.h }
    requires fact_2 { Pictured size.w size.h picture.old }
    requires fact_3 { InUnit colour }
    ensures { picture.new ≡ painted size.w size.h (shadow_on composite colour (chan picture.old size.w) (plane_in plane.old size.w)) }
{
    shadow_alphas(plane, colour.alpha);
    let tint = tint_of(colour);
    if composite {
        lay_pixels::<true>(picture, size, plane, tint);
    } else {
        lay_pixels::<false>(picture, size, plane, tint);
    }
}
