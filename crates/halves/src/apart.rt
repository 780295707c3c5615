// 80 pixels taken apart into four planes of 80 bytes: words, halves of words, bytes. Each loop writes half as wide as it reads, which the
// processors' vectors do at once, on Arm and on plain x86-64. They go by the index: over an iterator the words of a block leave the registers,
// and taking apart took a quarter more instructions.
ghost use Rattle.std.specs.Prelude.{◌≡◌, ◌+◌, ◌*◌, ◌/◌, ◌%◌, ◌≤◌, ◌<◌, length, get_or};
ghost use Rattle.picture.specs.Build.{build};
ghost use Rattle.picture.specs.Spans.{Run};
ghost use Rattle.halves.specs.Blocks.{apart};

use counting::words::pack_pixels;

// One half of each word: the lower where `by` is 1, the upper where it is 65536.
fn take_halves(halves: &mut [u16], words: &[u32], by: u32)
    requires fact_1 { length words.now ≡ length halves.old }
    requires fact_2 { 0 < by }
    ensures { Run 0 halves.old halves.new 0 (length words.now) (λ k. get_or words.now k 0 / by % 65536) }
{
    for k in 0..halves.len() {
        halves[k] = (words[k] / by % 65536) as u16;
    }
}

// Lays one byte of each half over the bytes from `to` on: the lower where `by` is 1, the upper where it is 256.
fn lay_bytes(dst: &mut [u8], to: usize, halves: &[u16], by: u16)
    requires fact_1 { to + length halves.now ≤ length dst.old }
    requires fact_2 { 0 < by }
    ensures { Run 0 dst.old dst.new to (length halves.now) (λ k. get_or halves.now k 0 / by % 256) }
{
    for k in 0..halves.len() {
        dst[to + k] = (halves[k] / by % 256) as u8;
    }
}

// Takes 80 pixels apart, those from pixel m on.
pub fn take_apart(dst: &mut [u8], src: &[u8], m: usize)
    requires fact_1 { 4 * (m + 80) ≤ length src.now }
    requires fact_2 { length dst.old ≡ 320 }
    ensures { dst.new ≡ build 320 (apart src.now m) }
{
    let mut words = [0u32; 80];
    let mut low = [0u16; 80];
    let mut high = [0u16; 80];
    pack_pixels(&mut words, src, m);
    take_halves(&mut low, &words, 1);
    take_halves(&mut high, &words, 65536);
    lay_bytes(dst, 0, &low, 1);
    lay_bytes(dst, 80, &low, 256);
    lay_bytes(dst, 160, &high, 1);
    lay_bytes(dst, 240, &high, 256);
}
