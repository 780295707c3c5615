// Pixels in one word each.
ghost use Rattle.std.specs.Prelude.{◌≡◌, cond, ◌+◌, ◌*◌, ◌/◌, ◌%◌, ◌≤◌, length, get_or};
ghost use Rattle.picture.specs.Build.{build};
ghost use Rattle.pixels.specs.Pixels.{pixel_at, packed};
ghost use Rattle.pixels.specs.Channels.{exceeds};
ghost use Rattle.counting.specs.Words.{unpacked, byte_in};

use picture::Pixel;
use pixels::{pixel_at, set_pixel};

// A word as a place.
pub fn place(word: u32) -> usize
    ensures { result ≡ word }
{
    word as usize
}

// The pixel in a word, red lowest.
pub fn unpack(word: u32) -> Pixel
    ensures { result ≡ unpacked word }
{
    let [r, g, b, a] = word.to_le_bytes();
    Pixel { r, g, b, a }
}

// Packs the pixels from `from` on, one into each word. By the index, as the loops of `halves` that read these words: over `iter_mut` the words of
// a block are stored and read again, where they can stay in registers.
pub fn pack_pixels(words: &mut [u32], picture: &[u8], from: usize)
    requires { 4 * (from + length words.old) ≤ length picture.now }
    ensures { words.new ≡ build (length words.old) (λ k. packed (pixel_at picture.now (from + k))) }
{
    for k in 0..words.len() {
        words[k] = pixels::pack(pixel_at(picture, from + k));
    }
}

// Writes the pixels in words one after the other.
pub fn unpack_pixels(bytes: &mut [u8], words: &[u32])
    requires { length bytes.old ≡ 4 * length words.now }
    ensures { bytes.new ≡ build (length bytes.old) (λ j. byte_in (get_or words.now (j / 4) 0) (j % 4)) }
{
    for (k, word) in words.iter().enumerate() {
        set_pixel(bytes, k, unpack(*word));
    }
}

// 1 where a channel of the pixel in a word exceeds its alpha, else 0. It tests words, not bytes: a loop over it runs on several at once.
pub fn one_exceeding(word: u32) -> u32
    ensures { result ≡ cond (exceeds (unpacked word)) 1 0 }
{
    let a = word / 16777216 % 256;
    if a < word % 256 {
        return 1;
    }
    if a < word / 256 % 256 {
        return 1;
    }
    if a < word / 65536 % 256 {
        return 1;
    }
    0
}
