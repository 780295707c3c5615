// Whether no pixel fails the check: one pass that only reads, many bytes at once, up to a block that has one.
ghost use Rattle.std.specs.Prelude.{◌≡◌, ◌+◌, ◌*◌, ◌%◌, ◌≤◌, eqb, length};
ghost use Rattle.pixels.specs.Channels.{exceeds_at};
ghost use Rattle.counting.specs.Counts.{how_many};
ghost use Rattle.counting.specs.Over.{over_at, over_first, joined};

use pixels::{exceeds, pixel_at};

// How far the greatest of three bytes exceeds the one after them, else 0. Where no pixel begins it says nothing of one, and costs less than
// to pass that byte over.
fn over(picture: &[u8], j: usize) -> u8
    requires { j + 4 ≤ length picture.now }
    ensures { result ≡ over_at picture.now j }
{
    let most = picture[j].max(picture[j + 1].max(picture[j + 2]));
    most.saturating_sub(picture[j + 3])
}

// That of byte j from pixel `from` on, where a pixel begins there.
fn over_first(picture: &[u8], from: usize, j: usize) -> u8
    requires { 4 * from + j + 4 ≤ length picture.now }
    ensures { result ≡ over_first picture.now from j }
{
    let o = over(picture, 4 * from + j);
    if j % 4 == 0 {
        return o;
    }
    0
}

// Those of a block of 32 pixels, and so not 0 where one fails. It reads three bytes past the block.
fn over_block(picture: &[u8], from: usize) -> u8
    requires { 4 * from + 131 ≤ length picture.now }
    ensures { result ≡ joined (over_first picture.now from) 128 }
{
    let mut all = 0u8;
    for j in 0..128 {
        all |= over_first(picture, from, j);
    }
    all
}

// Of the first n pixels, which are whole blocks and not the last ones.
fn none_in_blocks(picture: &[u8], n: usize) -> bool
    requires fact_1 { 4 * n + 3 ≤ length picture.now }
    requires fact_2 { n % 32 ≡ 0 }
    ensures { result ≡ eqb (how_many (exceeds_at picture.now) n) 0 }
{
    for block in 0..n / 32 {
        if over_block(picture, 32 * block) != 0 {
            return false;
        }
    }
    true
}

// Of the first n, where none of those before `from` fails.
fn none_in_rest(picture: &[u8], from: usize, n: usize) -> bool
    requires fact_1 { 4 * n ≤ length picture.now }
    requires fact_2 { from ≤ n }
    requires fact_3 { how_many (exceeds_at picture.now) from ≡ 0 }
    ensures { result ≡ eqb (how_many (exceeds_at picture.now) n) 0 }
{
    for i in from..n {
        if exceeds(pixel_at(picture, i)) {
            return false;
        }
    }
    true
}

// Whether none of the first n pixels fails.
pub fn none_exceeds(picture: &[u8], n: usize) -> bool
    requires { 4 * n ≤ length picture.now }
    ensures { result ≡ eqb (how_many (exceeds_at picture.now) n) 0 }
{
    if n == 0 {
        return true;
    }
    let whole = (n - 1) / 32 * 32;
    if none_in_blocks(picture, whole) {
        return none_in_rest(picture, whole, n);
    }
    false
}
