// A picture as four planes: all r, then all g, b and a; and back.
#![tactic(auto)]

ghost use Rattle.std.specs.Prelude.{◌≡◌, ◌+◌, ◌*◌, ◌≤◌, ◌<◌, length};
ghost use Rattle.picture.specs.Refusal.{number_of, first_of};
ghost use Rattle.picture.specs.Answer.{answered};
ghost use Rattle.planes.specs.Planar.{planar, interleaved, Converts};
ghost use Rattle.planes.specs.Places.{Carried, Carries, with_pixel, pixelwise, Counted, InPlanes};
ghost use Rattle.planes.specs.Outcome.{convert_checks, to_planes_outcome, from_planes_outcome};

use halves::apart::take_apart;
use halves::together::put_together;
use picture::{FullSize, Refusal, refuse_if};
use pixels::copy_run;

// How far apart two channels of a pixel stand, and one channel of two pixels.
#[derive(Clone, Copy)]
struct Steps {
    channel: usize,
    pixel: usize,
}

impl Steps {
    // Of a picture, ..
    const PICTURE: Steps = Steps {
        channel: 1,
        pixel: 4,
    };

    // .. and of four planes of n bytes.
    fn planes(n: usize) -> Steps
        ensures { result ≡ record { channel = n; pixel = 1 } }
    {
        Steps {
            channel: n,
            pixel: 1,
        }
    }
}

// Carries one pixel: its channels are read s bytes apart from p on, and written d bytes apart from q on.
fn carry_pixel(src: &[u8], p: usize, s: usize, dst: &mut [u8], q: usize, d: usize)
    requires fact_1 { p + 3 * s < length src.now }
    requires fact_2 { q + 3 * d < length dst.old }
    requires fact_3 { (length src.now ≤ 17179869184) × (length dst.old ≤ 17179869184) }
    ensures { dst.new ≡ with_pixel src.now p s dst.old q d }
{
    dst[q] = src[p];
    dst[q + d] = src[p + s];
    dst[q + 2 * d] = src[p + 2 * s];
    dst[q + 3 * d] = src[p + 3 * s];
}

// Carries the pixels from `from` up to `to` from one form to the other.
fn carry(src: &[u8], s: Steps, dst: &mut [u8], d: Steps, from: usize, to: usize)
    requires { Carries (pixelwise s.channel s.pixel) (pixelwise d.channel d.pixel) from to src.now dst.old }
    ensures { Carried (pixelwise s.channel s.pixel) (pixelwise d.channel d.pixel) src.now dst.new (4 * to) }
{
    for i in from..to {
        carry_pixel(src, i * s.pixel, s.channel, dst, i * d.pixel, d.channel);
    }
}

// Takes 80 pixels apart, those from m on, and lays 64 bytes in each plane, plane after plane; the first two planes are 16 bytes ahead of the others.
fn split_block(src: &[u8], dst: &mut [u8], parts: &mut [u8], n: usize, m: usize)
    requires fact_1 { Counted n src.now dst.old }
    requires fact_2 { length parts.old ≡ 320 }
    requires fact_3 { m + 80 ≤ n }
    requires fact_4 { InPlanes n m 0 src.now dst.old }
    ensures { InPlanes n (m + 64) 0 src.now dst.new }
{
    take_apart(parts, src, m);
    copy_run(parts, 16, dst, m + 16, 64);
    copy_run(parts, 96, dst, n + m + 16, 64);
    copy_run(parts, 160, dst, 2 * n + m, 64);
    copy_run(parts, 240, dst, 3 * n + m, 64);
}

// Takes a picture apart by blocks, from pixel 48 on; answers up to where all pixels are in the planes. All blocks are lent the same parts:
// with parts of its own for each, a block takes the compiler's code for AVX2 more steps.
fn split_blocks(src: &[u8], dst: &mut [u8], parts: &mut [u8], n: usize) -> usize
    requires fact_1 { Counted n src.now dst.old }
    requires fact_2 { length parts.old ≡ 320 }
    ensures { (result ≤ n) × Carried (pixelwise 1 4) (pixelwise n 1) src.now dst.new (4 * result) }
{
    if n < 64 {
        return 0;
    }
    carry(src, Steps::PICTURE, dst, Steps::planes(n), 0, 64);
    let blocks = n / 64 - 1;
    for block in 0..blocks {
        split_block(src, dst, parts, n, 48 + 64 * block);
    }
    48 + 64 * blocks
}

// Writes the planes of a picture: most of it by blocks, and the pixels that are left one by one.
pub fn split(src: &[u8], dst: &mut [u8], size: FullSize)
    requires { Converts size src.now dst.old }
    ensures { dst.new ≡ planar size.w size.h src.now }
{
    let mut parts = [0u8; 320];
    let n = size.bytes() / 4;
    let m = split_blocks(src, dst, &mut parts, n);
    carry(src, Steps::PICTURE, dst, Steps::planes(n), m, n);
}

// Puts a picture together by blocks; answers up to where it is.
fn join_blocks(src: &[u8], dst: &mut [u8], n: usize) -> usize
    requires { Counted n src.now dst.old }
    ensures { (result ≤ n) × Carried (pixelwise n 1) (pixelwise 1 4) src.now dst.new (4 * result) }
{
    let blocks = n / 64;
    for block in 0..blocks {
        put_together(dst, src, n, 64 * block);
    }
    64 * blocks
}

// Writes the picture of four planes: most of it by blocks, and the pixels that are left one by one.
pub fn join(src: &[u8], dst: &mut [u8], size: FullSize)
    requires { Converts size src.now dst.old }
    ensures { dst.new ≡ interleaved size.w size.h src.now }
{
    let n = size.bytes() / 4;
    let m = join_blocks(src, dst, n);
    carry(src, Steps::planes(n), dst, Steps::PICTURE, m, n);
}

// The first of refusals 1, 2 and 3 that fits; of the lengths.
#[tactic(auto, unfolding(picture::specs::Refusal::number_of, picture::specs::Refusal::number, picture::specs::Refusal::first_of, picture::specs::Refusal::first_else))]
fn check_convert(src: usize, w: u32, h: u32, dst: usize) -> Result<(), Refusal>
    ensures { number_of result ≡ first_of (convert_checks src w h dst) }
{
    picture::check_picture(src, w, h)?;
    refuse_if(picture::too_short(dst, w, h), Refusal::TooShort)
}

// The planes of a picture of w by h pixels, into the first 4wh bytes of `dst`.
pub fn to_planes(src: &[u8], w: u32, h: u32, dst: &mut [u8]) -> Result<(), Refusal>
    ensures { answered (number_of result) dst.new ≡ to_planes_outcome src.now w h dst.old }
{
    check_convert(src.len(), w, h, dst.len())?;
    let k = src.len();
    split(src, &mut dst[..k], picture::full_size(w, h));
    Ok(())
}

// The picture of four planes of w by h, into the first 4wh bytes of `dst`. One function for both ways would take its step, and that step's
// contract, as a parameter: no plainer than these three lines.
pub fn from_planes(src: &[u8], w: u32, h: u32, dst: &mut [u8]) -> Result<(), Refusal>
    ensures { answered (number_of result) dst.new ≡ from_planes_outcome src.now w h dst.old }
{
    check_convert(src.len(), w, h, dst.len())?;
    let k = src.len();
    join(src, &mut dst[..k], picture::full_size(w, h));
    Ok(())
}
