// One pixel of a picture read, written and packed into a word, whether a channel of it exceeds alpha, a channel multiplied by its alpha; and bytes copied.
#![tactic(auto)]

ghost use Rattle.std.specs.Prelude.{◌≡◌, ◌+◌, ◌*◌, ◌≤◌, length, get_or};
ghost use Rattle.picture.specs.Spans.{Run};
ghost use Rattle.pixels.specs.Pixels.{pixel_at, with_pixel, packed};
ghost use Rattle.pixels.specs.Channels.{exceeds, premultiply};

use picture::Pixel;

// Pixel i of all.
pub fn pixel_at(bytes: &[u8], i: usize) -> Pixel
    requires { 4 * i + 4 ≤ length bytes.now }
    ensures { result ≡ pixel_at bytes.now i }
{
    let o = 4 * i;
    Pixel {
        r: bytes[o],
        g: bytes[o + 1],
        b: bytes[o + 2],
        a: bytes[o + 3],
    }
}

// Writes pixel i of all.
pub fn set_pixel(bytes: &mut [u8], i: usize, p: Pixel)
    requires { 4 * i + 4 ≤ length bytes.old }
    ensures { bytes.new ≡ with_pixel bytes.old i p }
{
    let o = 4 * i;
    bytes[o] = p.r;
    bytes[o + 1] = p.g;
    bytes[o + 2] = p.b;
    bytes[o + 3] = p.a;
}

// A pixel in one word, red lowest.
pub fn pack(p: Pixel) -> u32
    ensures { result ≡ packed p }
{
    p.r as u32 + p.g as u32 * 256 + p.b as u32 * 65536 + p.a as u32 * 16777216
}

// Whether r, g or b exceeds a.
#[tactic(auto, unfolding(crate::specs::Channels::exceeds))]
pub fn exceeds(p: Pixel) -> bool
    ensures { result ≡ exceeds p }
{
    p.a < p.r || p.a < p.g || p.a < p.b
}

// A byte with room for a product of two.
pub fn wide(x: u8) -> u16
    ensures { result ≡ x }
{
    x as u16
}

// A channel multiplied by its alpha, to the nearest whole number.
pub fn premultiply(channel: u8, alpha: u8) -> u8
    ensures { result ≡ premultiply channel alpha }
{
    ((wide(channel) * wide(alpha) + 127) / 255) as u8
}

// Copies all bytes.
pub fn copy_bytes(to: &mut [u8], from: &[u8])
    requires { length to.old ≡ length from.now }
    ensures { to.new ≡ from.now }
{
    for i in 0..to.len() {
        to[i] = from[i];
    }
}

// Copies n bytes, from p on, into dst from q on.
pub fn copy_run(src: &[u8], p: usize, dst: &mut [u8], q: usize, n: usize)
    requires fact_1 { p + n ≤ length src.now }
    requires fact_2 { q + n ≤ length dst.old }
    ensures { Run 0 dst.old dst.new q n (λ k. get_or src.now (p + k) 0) }
{
    for k in 0..n {
        dst[q + k] = src[p + k];
    }
}
