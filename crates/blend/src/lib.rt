// Bytes blended in weights 1, 3, 3, 1 over 8, and by them the outputs of a halved or doubled line.
#![tactic(auto)]

ghost use Rattle.std.specs.Prelude.{◌≡◌, ◌+◌, ◌*◌, ◌/◌, ◌%◌, ◌≤◌, ◌<◌, ◌^◌, length, get_or};
ghost use Rattle.picture.specs.Sizes.{side_room};
ghost use Rattle.picture.specs.Spans.{Run};
ghost use Rattle.passes.specs.Passes.{halve, double};
ghost use Rattle.pixels.specs.Pixels.{pixel_from};
ghost use Rattle.blend.specs.Tapped.{offset_of, tap_of, taps_of, weights_of, tapped, LineRoom, Output, Blendable};
ghost use Rattle.blend.specs.Blend.{weighed};
ghost use Rattle.blend.specs.Pixels.{channel_of, weighed_pixels};
ghost use Rattle.blend.specs.Parts.{Room, PassPartInside};

use edges::extend;
use picture::{EdgeMode, Pixel};

// Where the bytes of a place start, from the line's start on, and the weight that they have.
#[derive(Clone, Copy)]
struct Tap {
    at: usize,
    weight: u16,
}

// The four taps of an output.
#[derive(Clone, Copy)]
pub struct Taps {
    a: Tap,
    b: Tap,
    c: Tap,
    d: Tap,
}

// The weights of four values, over 8.
#[derive(Clone, Copy)]
struct Weights {
    a: u16,
    b: u16,
    c: u16,
    d: u16,
}

// Those of halving, and of doubling, whose weights 1, 3 over 4 they are too.
const ONE_THREE: Weights = Weights {
    a: 1,
    b: 3,
    c: 3,
    d: 1,
};

impl Taps {
    fn weights(self) -> Weights
        ensures { result ≡ weights_of self }
    {
        Weights {
            a: self.a.weight,
            b: self.b.weight,
            c: self.c.weight,
            d: self.d.weight,
        }
    }
}

// The bytes of a place, in a weight. Outside they are the line's first, in weight 0, so that a loop over lanes has no branch.
fn tap_of(p: Option<usize>, stride: usize, weight: u16) -> Tap
    requires { offset_of p stride < 2 ^ 64 }
    ensures { result ≡ tap_of p stride weight }
{
    match p {
        Some(i) => Tap {
            at: i * stride,
            weight: weight,
        },
        None => Tap { at: 0, weight: 0 },
    }
}

// The bytes of four places, in weights 1, 3, 3, 1.
fn taps_of(
    a: Option<usize>,
    b: Option<usize>,
    c: Option<usize>,
    d: Option<usize>,
    stride: usize,
) -> Taps
    requires { (offset_of a stride < 2 ^ 64) × (offset_of b stride < 2 ^ 64) × (offset_of c stride < 2 ^ 64) × (offset_of d stride < 2 ^ 64) }
    ensures { result ≡ taps_of a b c d stride }
{
    Taps {
        a: tap_of(a, stride, 1),
        b: tap_of(b, stride, 3),
        c: tap_of(c, stride, 3),
        d: tap_of(d, stride, 1),
    }
}

// What output x of a line of len elements, halved, is made of. A pass asks once for all its lines.
pub fn halve_taps(len: usize, stride: usize, x: usize, mode: EdgeMode) -> Taps
    requires { (x < 2 * side_room) × LineRoom len stride }
    ensures { Output (halve mode) len stride x result }
{
    let at = 2 * x;
    let a = extend(at, 1, len, mode);
    let b = extend(at, 0, len, mode);
    let c = extend(at + 1, 0, len, mode);
    let d = extend(at + 2, 0, len, mode);
    taps_of(a, b, c, d, stride)
}

// What output y of a line of len elements, doubled, is made of: the element at y / 2, and the one before it where y is even, after it
// where y is odd. Weights 1, 3 over 4 are weights 1, 3, 3, 1 over 8.
pub fn double_taps(len: usize, stride: usize, y: usize, mode: EdgeMode) -> Taps
    requires { (y < 2 * side_room) × LineRoom len stride }
    ensures { Output (double mode) len stride y result }
{
    let x = y / 2;
    let odd = y % 2;
    let far = extend(x + odd, 1 - odd, len, mode);
    let near = extend(x, 0, len, mode);
    taps_of(far, near, near, far, stride)
}

// Four bytes in their weights, over 8, rounded, halves upward.
fn blend(a: u8, b: u8, c: u8, d: u8, w: Weights) -> u8
    requires { w.a + w.b + w.c + w.d ≤ 8 }
    ensures { result ≡ weighed w a b c d }
{
    ((w.a * a as u16 + w.b * b as u16 + w.c * c as u16 + w.d * d as u16 + 4) / 8) as u8
}

// The taps of the line at start, blended lane by lane into the element at o.
fn blend_lanes(src: &[u8], start: usize, stride: usize, t: Taps, dst: &mut [u8], o: usize)
    requires { Blendable src.now dst.old t start stride o }
    ensures { Run 0 dst.old dst.new o stride (tapped src.now start t) }
{
    let at_a = start + t.a.at;
    let at_b = start + t.b.at;
    let at_c = start + t.c.at;
    let at_d = start + t.d.at;
    let w = t.weights();
    for k in 0..stride {
        dst[o + k] = blend(
            src[at_a + k],
            src[at_b + k],
            src[at_c + k],
            src[at_d + k],
            w,
        );
    }
}

// Pixel i of the row at start. It is read here and not by `pixels`: through a second call a blur with decimations took up to 29 % longer.
fn read_pixel(src: &[u8], start: usize, i: usize) -> Pixel
    requires { start + i * 4 + 4 ≤ length src.now }
    ensures { result ≡ pixel_from src.now (start + i * 4) }
{
    let at = start + i * 4;
    Pixel {
        r: src[at],
        g: src[at + 1],
        b: src[at + 2],
        a: src[at + 3],
    }
}

// Four pixels in their weights, over 8, rounded, channel by channel.
fn weigh_pixels(p: Pixel, q: Pixel, r: Pixel, s: Pixel, w: Weights) -> Pixel
    requires { w.a + w.b + w.c + w.d ≤ 8 }
    ensures { result ≡ weighed_pixels w p q r s }
{
    Pixel {
        r: blend(p.r, q.r, r.r, s.r, w),
        g: blend(p.g, q.g, r.g, s.g, w),
        b: blend(p.b, q.b, r.b, s.b, w),
        a: blend(p.a, q.a, r.a, s.a, w),
    }
}

// Pixel i of the row at o, written.
fn write_pixel(dst: &mut [u8], o: usize, i: usize, p: Pixel)
    requires { o + i * 4 + 4 ≤ length dst.old }
    ensures { Run 0 dst.old dst.new (o + i * 4) 4 (channel_of p) }
{
    let at = o + i * 4;
    dst[at] = p.r;
    dst[at + 1] = p.g;
    dst[at + 2] = p.b;
    dst[at + 3] = p.a;
}

// The taps of the line at start, pixels, blended into the pixel at o. All are read before one is stored, as by `halve_pixel`.
fn blend_pixel(src: &[u8], start: usize, t: Taps, dst: &mut [u8], o: usize)
    requires { Blendable src.now dst.old t start 4 o }
    ensures { Run 0 dst.old dst.new o 4 (tapped src.now start t) }
{
    let p = read_pixel(src, start + t.a.at, 0);
    let q = read_pixel(src, start + t.b.at, 0);
    let r = read_pixel(src, start + t.c.at, 0);
    let s = read_pixel(src, start + t.d.at, 0);
    write_pixel(dst, o, 0, weigh_pixels(p, q, r, s, t.weights()));
}

// The taps of the line at start, blended into the element at o: of pixels at once, of any other elements lane by lane.
pub fn blend_element(src: &[u8], start: usize, stride: usize, t: Taps, dst: &mut [u8], o: usize)
    requires { Blendable src.now dst.old t start stride o }
    ensures { Run 0 dst.old dst.new o stride (tapped src.now start t) }
{
    if stride == 4 {
        blend_pixel(src, start, t, dst, o);
        return;
    }
    blend_lanes(src, start, stride, t, dst, o);
}

// Output x of a row, halved, whose samples lie inside. All are read before one is stored, so that the compiler keeps a pixel's channels in one vector.
fn halve_pixel(src: &[u8], start: usize, len: usize, dst: &mut [u8], o: usize, x: usize)
    requires { (0 < x) × (2 * x + 2 < len) × Room src.now dst.old start 4 len o (x + 1) }
    ensures { PassPartInside halve src.now dst.old dst.new start 4 len o x (x + 1) }
{
    let at = 2 * x;
    let p = read_pixel(src, start, at - 1);
    let q = read_pixel(src, start, at);
    let r = read_pixel(src, start, at + 1);
    let s = read_pixel(src, start, at + 2);
    write_pixel(dst, o, x, weigh_pixels(p, q, r, s, ONE_THREE));
}

// Outputs 2x + 1 and 2x + 2 of a row, doubled: the two between pixels x and x + 1, by whole pixels as `halve_pixel` does. There is always
// room for them; tested, it keeps the compiler to the eight bytes of one pair, in two thirds of the time of sixteen pairs at once.
fn double_pixel(src: &[u8], start: usize, len: usize, dst: &mut [u8], o: usize, x: usize)
    requires { (x + 1 < len) × Room src.now dst.old start 4 len o (2 * x + 3) }
    ensures { PassPartInside double src.now dst.old dst.new start 4 len o (2 * x + 1) (2 * x + 3) }
{
    let at = 2 * x;
    if dst.len() < o + (at + 3) * 4 {
        return;
    }
    let p = read_pixel(src, start, x);
    let q = read_pixel(src, start, x + 1);
    write_pixel(dst, o, at + 1, weigh_pixels(q, p, p, q, ONE_THREE));
    write_pixel(dst, o, at + 2, weigh_pixels(p, q, q, p, ONE_THREE));
}

// The two bytes from `at` on as one number, the first in its low half. It is a function of its own so that the compiler makes one read of it before
// it is told which half is wanted: on plain x86-64 bytes that lie two apart are read one by one, and reads of two make vector code.
fn read_two(src: &[u8], at: usize) -> u16
    requires { at + 2 ≤ length src.now }
    ensures { (result % 256 ≡ get_or src.now at 0) × (result / 256 ≡ get_or src.now (at + 1) 0) }
{
    src[at] as u16 + 256 * src[at + 1] as u16
}

// The same as `halve_pixel`, of single bytes: the four samples are two reads of two.
fn halve_byte(src: &[u8], start: usize, len: usize, dst: &mut [u8], o: usize, x: usize)
    requires { (0 < x) × (2 * x + 2 < len) × Room src.now dst.old start 1 len o (x + 1) }
    ensures { PassPartInside halve src.now dst.old dst.new start 1 len o x (x + 1) }
{
    let at = start + 2 * x;
    let p = read_two(src, at - 1);
    let q = read_two(src, at + 1);
    dst[o + x] = blend(
        (p % 256) as u8,
        (p / 256) as u8,
        (q % 256) as u8,
        (q / 256) as u8,
        ONE_THREE,
    );
}

// The same as `halve_pixel`, of elements of any width, lane by lane.
fn halve_lanes(
    src: &[u8],
    start: usize,
    stride: usize,
    len: usize,
    dst: &mut [u8],
    o: usize,
    x: usize,
)
    requires { (0 < x) × (2 * x + 2 < len) × Room src.now dst.old start stride len o (x + 1) }
    ensures { PassPartInside halve src.now dst.old dst.new start stride len o x (x + 1) }
{
    let at = 2 * x;
    let t = taps_of(Some(at - 1), Some(at), Some(at + 1), Some(at + 2), stride);
    blend_lanes(src, start, stride, t, dst, o + x * stride);
}

// The same as `double_pixel`, of elements of any width, lane by lane: a lane of each of the two is read once, for both outputs.
fn double_lanes(
    src: &[u8],
    start: usize,
    stride: usize,
    len: usize,
    dst: &mut [u8],
    o: usize,
    x: usize,
)
    requires { (x + 1 < len) × Room src.now dst.old start stride len o (2 * x + 3) }
    ensures { PassPartInside double src.now dst.old dst.new start stride len o (2 * x + 1) (2 * x + 3) }
{
    let p = start + x * stride;
    let q = start + (x + 1) * stride;
    let a = o + (2 * x + 1) * stride;
    let b = a + stride;
    for k in 0..stride {
        let u = src[p + k];
        let v = src[q + k];
        dst[a + k] = blend(v, u, u, v, ONE_THREE);
        dst[b + k] = blend(u, v, v, u, ONE_THREE);
    }
}

// Output x of a line, halved, whose samples lie inside: of pixels, of single bytes, and of any other elements. Halving makes one output of four
// samples and doubling two of two, so the ways of either are code of their own: one function for both would only choose between them.
pub fn halve_inside(
    src: &[u8],
    start: usize,
    stride: usize,
    len: usize,
    dst: &mut [u8],
    o: usize,
    x: usize,
)
    requires { (0 < x) × (2 * x + 2 < len) × Room src.now dst.old start stride len o (x + 1) }
    ensures { PassPartInside halve src.now dst.old dst.new start stride len o x (x + 1) }
{
    if stride == 4 {
        halve_pixel(src, start, len, dst, o, x);
        return;
    }
    if stride == 1 {
        halve_byte(src, start, len, dst, o, x);
        return;
    }
    halve_lanes(src, start, stride, len, dst, o, x);
}

// Outputs 2x + 1 and 2x + 2 of a line, doubled, by the same three ways; of single bytes a width that the compiler knows makes one loop over the
// line of it, which is vector code everywhere.
pub fn double_inside(
    src: &[u8],
    start: usize,
    stride: usize,
    len: usize,
    dst: &mut [u8],
    o: usize,
    x: usize,
)
    requires { (x + 1 < len) × Room src.now dst.old start stride len o (2 * x + 3) }
    ensures { PassPartInside double src.now dst.old dst.new start stride len o (2 * x + 1) (2 * x + 3) }
{
    if stride == 4 {
        double_pixel(src, start, len, dst, o, x);
        return;
    }
    if stride == 1 {
        double_lanes(src, start, 1, len, dst, o, x);
        return;
    }
    double_lanes(src, start, stride, len, dst, o, x);
}
