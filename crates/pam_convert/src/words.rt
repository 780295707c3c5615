// The pixels of a block, one in each word, so that a loop over them runs on several at once.
ghost use Rattle.std.specs.Prelude.{◌≡◌, true, false, ℕ, ◌*◌, ◌<◌, length, get_or};
ghost use Rattle.picture.specs.Build.{build};
ghost use Rattle.pixels.specs.Channels.{exceeds};
ghost use Rattle.counting.specs.Words.{unpacked};
ghost use Rattle.pam_convert.specs.Straight.{new_word, new_at};
ghost use Rattle.pam_convert.specs.Needs.{Fit};

use crate::ways::Words;
use counting::words::{pack_pixels, unpack_pixels};
use unmultiply::{unmultiply, unmultiply_two};

// The pixel in a word with its channels divided by its alpha.
pub fn straight_word(word: u32) -> u32
    requires { exceeds (unpacked word) ≡ false }
    ensures { result ≡ new_word true word }
{
    let a = word / 16777216 % 256;
    let red_green = unmultiply_two(word % 256, word / 256 % 256, a);
    let blue = unmultiply(word / 65536 % 256, a);
    red_green + blue * 65536 + a * 16777216
}

// What the bytes of the pixel in a word are multiplied by: its alpha, and 255 for the alpha itself, which stays.
pub fn factor_word(word: u32) -> u32
    ensures { result ≡ new_word false word }
{
    let a = word / 16777216 % 256;
    a + a * 256 + a * 65536 + 255 * 16777216
}

// Of each word.
fn new_words<W: Words>(words: &mut [u32])
    requires { W.out ≡ true → (k : ℕ) → k < length words.old → exceeds (unpacked (get_or words.old k 0)) ≡ false }
    ensures { words.new ≡ build (length words.old) (λ k. new_word W.out (get_or words.old k 0)) }
{
    for k in 0..words.len() {
        words[k] = W::anew(words[k]);
    }
}

// The bytes that a block's pixels make.
pub fn new_block<W: Words>(to: &mut [u8], from: &[u8], words: &mut [u32])
    requires fact_1 { length from.now ≡ 4 * length words.old }
    requires fact_2 { length to.old ≡ 4 * length words.old }
    requires fact_3 { Fit W.out from.now }
    ensures { to.new ≡ build (length to.old) (new_at W.out from.now) }
{
    pack_pixels(words, from, 0);
    new_words::<W>(words);
    unpack_pixels(to, words);
}
