// 64 pixels put together from four planes: bytes, halves of words, pixels. A loop that carried byte by byte would run on one byte at a time
// on plain x86-64, and over halves it runs on several; on Arm both are the same.
ghost use Rattle.std.specs.Prelude.{◌≡◌, ◌+◌, ◌*◌, ◌/◌, ◌%◌, ◌≤◌, length, get_or};
ghost use Rattle.picture.specs.Spans.{Run};
ghost use Rattle.counting.specs.Words.{byte_in};
ghost use Rattle.halves.specs.Blocks.{together};

use counting::words::unpack;
use pixels::set_pixel;

// Two halves as a word, the first lowest.
fn word(low: u16, high: u16) -> u32
    ensures { result ≡ low + high * 65536 }
{
    u32::from(low) + u32::from(high) * 65536
}

// The bytes of two planes as halves, those from p on and those from q on.
fn pair_bytes(halves: &mut [u16], src: &[u8], p: usize, q: usize)
    requires fact_1 { p + length halves.old ≤ length src.now }
    requires fact_2 { q + length halves.old ≤ length src.now }
    ensures { Run 0 halves.old halves.new 0 (length halves.old) (λ k. get_or src.now (p + k) 0 + get_or src.now (q + k) 0 * 256) }
{
    for (k, pair) in halves.iter_mut().enumerate() {
        *pair = u16::from_le_bytes([src[p + k], src[q + k]]);
    }
}

// Lays a pixel for each two halves, from pixel m on.
fn lay_pixels(dst: &mut [u8], m: usize, low: &[u16], high: &[u16])
    requires fact_1 { 4 * (m + length low.now) ≤ length dst.old }
    requires fact_2 { length high.now ≡ length low.now }
    ensures { Run 0 dst.old dst.new (4 * m) (4 * length low.now) (λ j. byte_in (get_or low.now (j / 4) 0 + get_or high.now (j / 4) 0 * 65536) (j % 4)) }
{
    for k in 0..low.len() {
        set_pixel(dst, m + k, unpack(word(low[k], high[k])));
    }
}

// Puts 64 pixels together, those from pixel m on, of planes of n bytes.
pub fn put_together(dst: &mut [u8], src: &[u8], n: usize, m: usize)
    requires fact_1 { m + 64 ≤ n }
    requires fact_2 { length src.now ≡ 4 * n }
    requires fact_3 { length dst.old ≡ 4 * n }
    ensures { Run 0 dst.old dst.new (4 * m) 256 (together src.now n m) }
{
    let mut low = [0u16; 64];
    let mut high = [0u16; 64];
    pair_bytes(&mut low, src, m, n + m);
    pair_bytes(&mut high, src, 2 * n + m, 3 * n + m);
    lay_pixels(dst, m, &low, &high);
}
