// The body of a file, inward and outward: a block of 32 pixels at a time, and then the rest. That number is the same at every turn, so that
// the compiler keeps a block in registers.
ghost use Rattle.std.specs.Prelude.{◌≡◌, ◌*◌, ◌%◌, ◌<◌, length};
ghost use Rattle.picture.specs.Build.{build};
ghost use Rattle.picture.specs.Sizes.{full_bytes, Pictured};
ghost use Rattle.pam_convert.specs.Straight.{rule, anew_at, imported, exported};
ghost use Rattle.pam_convert.specs.Needs.{Passing, Fit};

use crate::ways::{Inward, Outward, Way};
use opaque::copy_opaque;
use picture::FullSize;

// Block after block.
fn convert_blocks<W: Way>(to: &mut [u8], from: &[u8], words: &mut [u32], factors: &mut [u8])
    requires fact_1 { (length from.now ≡ length to.old) × (length to.old % 128 ≡ 0) }
    requires fact_2 { length words.old ≡ 32 }
    requires fact_3 { length factors.old ≡ 128 }
    requires fact_4 { Fit W.out from.now }
    ensures { to.new ≡ build (length to.old) (anew_at (rule W.out) from.now) }
{
    for k in 0..to.len() / 128 {
        let at = 128 * k;
        let end = at + 128;
        W::convert_block(&mut to[at..end], &from[at..end], words, factors);
    }
}

// What is less than a block.
fn convert_rest<W: Way>(to: &mut [u8], from: &[u8], words: &mut [u32], factors: &mut [u8])
    requires fact_1 { (length from.now ≡ length to.old) × (length to.old % 4 ≡ 0) × (length to.old < 128) }
    requires fact_2 { length words.old ≡ 32 }
    requires fact_3 { length factors.old ≡ 128 }
    requires fact_4 { Fit W.out from.now }
    ensures { to.new ≡ build (length to.old) (anew_at (rule W.out) from.now) }
{
    let bytes = to.len();
    let pixels = bytes / 4;
    W::convert_block(to, from, &mut words[..pixels], &mut factors[..bytes]);
}

// All of it. The rest has words of its own: those of whole blocks are then read at places that the compiler knows.
fn convert<W: Way>(to: &mut [u8], from: &[u8])
    requires fact_1 { length from.now ≡ length to.old }
    requires fact_2 { length to.old % 4 ≡ 0 }
    requires fact_3 { Fit W.out from.now }
    ensures { to.new ≡ build (length to.old) (anew_at (rule W.out) from.now) }
{
    let mut words = [0u32; 32];
    let mut factors = [0u8; 128];
    let whole = to.len() / 128 * 128;
    convert_blocks::<W>(&mut to[..whole], &from[..whole], &mut words, &mut factors);
    let mut last_words = [0u32; 32];
    let mut last_factors = [0u8; 128];
    convert_rest::<W>(
        &mut to[whole..],
        &from[whole..],
        &mut last_words,
        &mut last_factors,
    );
}

// The same. Opaque pixels in front stay as they are.
fn convert_body<W: Way>(to: &mut [u8], from: &[u8])
    requires fact_1 { length from.now ≡ length to.old }
    requires fact_2 { length to.old % 4 ≡ 0 }
    requires fact_3 { Fit W.out from.now }
    ensures { to.new ≡ build (length to.old) (anew_at (rule W.out) from.now) }
{
    let front = copy_opaque(to, from);
    convert::<W>(&mut to[front..], &from[front..]);
}

// The body of a file inward.
pub fn read_body(picture: &mut [u8], size: FullSize, body: &[u8])
    requires fact_1 { Pictured size.w size.h body.now }
    requires fact_2 { length picture.old ≡ full_bytes size }
    ensures { picture.new ≡ imported size.w size.h body.now }
{
    convert_body::<Inward>(picture, body);
}

// The body of a file outward.
pub fn write_body(body: &mut [u8], size: FullSize, picture: &[u8])
    requires fact_1 { Passing size.w size.h picture.now }
    requires fact_2 { length body.old ≡ full_bytes size }
    ensures { body.new ≡ exported size.w size.h picture.now }
{
    convert_body::<Outward>(body, picture);
}
