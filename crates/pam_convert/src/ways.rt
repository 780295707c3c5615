// The two ways of a channel: outward from a picture it is divided by its alpha, and inward into one it is multiplied by it.
ghost use Rattle.std.specs.Prelude.{◌≡◌, Bool, true, false, ◌*◌, length};
ghost use Rattle.picture.specs.Build.{build};
ghost use Rattle.pixels.specs.Channels.{exceeds};
ghost use Rattle.counting.specs.Words.{unpacked};
ghost use Rattle.pam_convert.specs.Straight.{rule, anew_at, new_word};
ghost use Rattle.pam_convert.specs.Needs.{Fit};

use crate::blocks::multiply;
use crate::words::{factor_word, new_block, straight_word};

// What a way makes of words.
pub(crate) trait Words {
    // Whether it is the way outward.
    ghost out: { Bool };

    // What a block makes of the pixel in a word.
    fn anew(word: u32) -> u32
        requires { out ≡ true → exceeds (unpacked word) ≡ false }
        ensures { result ≡ new_word out word };
}

// And of blocks, of which each pixel has a word, and each byte a factor.
pub(crate) trait Way: Words {
    // Converts a block.
    fn convert_block(to: &mut [u8], from: &[u8], words: &mut [u32], factors: &mut [u8])
        requires fact_1 { length from.now ≡ 4 * length words.old }
        requires fact_2 { length to.old ≡ 4 * length words.old }
        requires fact_3 { length factors.old ≡ 4 * length words.old }
        requires fact_4 { Fit Self.out from.now }
        ensures { to.new ≡ build (length to.old) (anew_at (rule Self.out) from.now) };
}

// From a picture into a file.
pub(crate) struct Outward;

// From a file into a picture.
pub(crate) struct Inward;

impl Words for Outward {
    ghost out = { true };

    fn anew(word: u32) -> u32 {
        straight_word(word)
    }
}

impl Words for Inward {
    ghost out = { false };

    fn anew(word: u32) -> u32 {
        factor_word(word)
    }
}

impl Way for Outward {
    fn convert_block(to: &mut [u8], from: &[u8], words: &mut [u32], _factors: &mut [u8]) {
        new_block::<Outward>(to, from, words);
    }
}

impl Way for Inward {
    fn convert_block(to: &mut [u8], from: &[u8], words: &mut [u32], factors: &mut [u8]) {
        new_block::<Inward>(factors, from, words);
        multiply(to, from, factors);
    }
}
