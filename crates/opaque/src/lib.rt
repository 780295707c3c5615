// Opaque pixels in front of others, copied a block of 32 pixels at a time: inward and outward they stay as they are.
#![tactic(auto)]

ghost use Rattle.std.specs.Prelude.{◌≡◌, false, ℕ, ◌*◌, ◌≤◌, ◌<◌, length, get_or};
ghost use Rattle.opaque.specs.Front.{Opaque, Front};

use counting::words::pack_pixels;
use pixels::copy_bytes;

// The bits that all words have, and so no more than any of them.
fn common(words: &[u32]) -> u32
    ensures { (k : ℕ) → k < length words.now → result ≤ get_or words.now k 0 }
{
    let mut all = u32::MAX;
    for word in words {
        all &= *word;
    }
    all
}

// Whether a block has a pixel that is not opaque. A block of which it says so without reason is converted, to the same bytes.
fn mixed(block: &[u8], words: &mut [u32]) -> bool
    requires { length block.now ≡ 4 * length words.old }
    ensures { result ≡ false → Opaque block.now (length block.now) }
{
    pack_pixels(words, block, 0);
    common(words) < 4278190080
}

// Block after block, up to the first that is mixed, or to the rest.
fn copy_blocks(to: &mut [u8], from: &[u8], words: &mut [u32]) -> usize
    requires fact_1 { length from.now ≡ length to.old }
    requires fact_2 { length words.old ≡ 32 }
    ensures { Front from.now to.old result to.new }
{
    let blocks = to.len() / 128;
    for block in 0..blocks {
        let at = 128 * block;
        let end = at + 128;
        if mixed(&from[at..end], words) {
            return at;
        }
        copy_bytes(&mut to[at..end], &from[at..end]);
    }
    128 * blocks
}

// Copies them, and says how many bytes they are.
pub fn copy_opaque(to: &mut [u8], from: &[u8]) -> usize
    requires { length from.now ≡ length to.old }
    ensures { Front from.now to.old result to.new }
{
    let mut words = [0u32; 32];
    copy_blocks(to, from, &mut words)
}
