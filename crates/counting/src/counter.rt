// How many pixels fail the check: one pass that only reads, a block of words at a time.
ghost use Rattle.std.specs.Prelude.{◌≡◌, ◌+◌, ◌*◌, ◌%◌, ◌≤◌, ◌<◌, length, get_or};
ghost use Rattle.pixels.specs.Channels.{exceeds, exceeds_at};
ghost use Rattle.counting.specs.Counts.{how_many};
ghost use Rattle.counting.specs.Words.{unpacked};

use crate::words::{one_exceeding, pack_pixels};

// How many of the words hold a pixel that fails.
fn count_words(words: &[u32]) -> u32
    requires { length words.now < 4294967296 }
    ensures { result ≡ how_many (λ k. exceeds (unpacked (get_or words.now k 0))) (length words.now) }
{
    let mut count = 0;
    for word in words {
        count += one_exceeding(*word);
    }
    count
}

// How many of the pixels from `from` on fail, as many as there are words.
fn count_block(words: &mut [u32], picture: &[u8], from: usize) -> u32
    requires fact_1 { 4 * (from + length words.old) ≤ length picture.now }
    requires fact_2 { length words.old < 4294967296 }
    ensures { result ≡ how_many (λ k. exceeds_at picture.now (from + k)) (length words.old) }
{
    pack_pixels(words, picture, from);
    count_words(words)
}

// How many of the first n pixels fail, by blocks of as many as there are words. That number is the same at every call, so that a block's
// words are never stored: the compiler keeps them in registers.
fn count_blocks(words: &mut [u32], picture: &[u8], n: usize) -> usize
    requires fact_1 { 4 * n ≤ length picture.now }
    requires fact_2 { n % 32 ≡ 0 }
    requires fact_3 { length words.old ≡ 32 }
    ensures { result ≡ how_many (exceeds_at picture.now) n }
{
    let mut count = 0;
    for block in 0..n / 32 {
        count += count_block(words, picture, 32 * block) as usize;
    }
    count
}

// How many of the n pixels from `from` on fail, fewer than a block.
fn count_rest(words: &mut [u32], picture: &[u8], from: usize, n: usize) -> usize
    requires fact_1 { 4 * (from + n) ≤ length picture.now }
    requires fact_2 { n < 32 }
    requires fact_3 { length words.old ≡ 32 }
    ensures { result ≡ how_many (λ k. exceeds_at picture.now (from + k)) n }
{
    count_block(&mut words[..n], picture, from) as usize
}

// How many of the first n pixels fail. The rest has words of its own: those of whole blocks are then read at places that the compiler knows.
pub fn count_exceeding(picture: &[u8], n: usize) -> usize
    requires { 4 * n ≤ length picture.now }
    ensures { result ≡ how_many (exceeds_at picture.now) n }
{
    let mut words = [0u32; 32];
    let mut last = [0u32; 32];
    let whole = n / 32 * 32;
    count_blocks(&mut words, picture, whole) + count_rest(&mut last, picture, whole, n - whole)
}
