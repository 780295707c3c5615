// The convolution of lines and levels, block by block.
#![tactic(auto)]

ghost use Rattle.std.specs.Prelude.{◌≡◌, ℕ, ◌+◌, ◌-◌, ◌*◌, ◌/◌, ◌≤◌, ◌<◌, length, get_or};
ghost use Rattle.picture.specs.Sizes.{Sized};
ghost use Rattle.passes.specs.Passes.{convolve};
ghost use Rattle.passes.specs.Forms.{form_bytes, form_pass, Formed};
ghost use Rattle.passes.specs.Written.{line_byte, passed};
ghost use Rattle.passes.specs.Kernel.{Kernel};
ghost use Rattle.block_sums.specs.Room.{Source, BlockRoom};
ghost use Rattle.convolve.specs.Lines.{ConvolveLines, short};

use passes::Form;
use picture::{EdgeMode, LevelSize};

// At most this many lanes of whole elements to a block. So a block has at least 32 elements, and the 32 more that 33 taps read at most double
// what is filled; the values are 32 KiB of stack, zeroed once a pass.
const BLOCK: usize = 1024;

// The values of a block: of its elements and of those that the taps read beyond it, a strip of each.
const LINE: usize = (BLOCK / block_sums::WHOLE + picture::MAX_TAPS - 1) * block_sums::LANES;

// Lines of at most this many values, 5 KiB, with those that the taps read beyond their ends, are a block each, in a buffer as large: zeroing the
// large one took up to a fifth of a small blur.
const SHORT: usize = 1280;

// If there are no more lines than this: many rows of 16 pixels were up to 5 % slower so, and of many lines the zeroing is little.
const FEW: usize = 64;

// The line at start, in blocks of at most `most` elements, into dst. It counts by hand, since the last block may be shorter.
fn convolve_line(
    line: &mut [f32],
    src: &[u8],
    start: usize,
    dst: &mut [u8],
    len: usize,
    stride: usize,
    most: usize,
    weights: &[f32],
    mode: EdgeMode,
)
    requires fact_1 { Source src.now weights.now start len stride }
    requires fact_2 { len * stride ≤ length dst.old }
    requires fact_3 { BlockRoom line.old stride most }
    ensures { (j : ℕ) → j < len * stride → get_or dst.new j 0 ≡ line_byte (convolve mode weights.now) src.now start len stride j }
{
    let mut x = 0;
    while x < len {
        let m = most.min(len - x);
        block_sums::convolve_block(line, src, start, dst, len, stride, x, m, weights, mode);
        x += m;
    }
}

// Each of `lines` lines, in blocks of at most `most` elements, into its part of dst.
fn each_line(
    line: &mut [f32],
    src: &[u8],
    dst: &mut [u8],
    lines: usize,
    len: usize,
    stride: usize,
    most: usize,
    weights: &[f32],
    mode: EdgeMode,
)
    requires fact_1 { ConvolveLines src.now dst.old weights.now lines len stride }
    requires fact_2 { BlockRoom line.old stride most }
    ensures { dst.new ≡ passed (convolve mode weights.now) src.now lines len len stride }
{
    for y in 0..lines {
        let size = len * stride;
        let o = y * size;
        convolve_line(
            line,
            src,
            o,
            &mut dst[o..o + size],
            len,
            stride,
            most,
            weights,
            mode,
        );
    }
}

// Each of `lines` lines of at most SHORT values: one block each, in the small buffer. It is a loop of its own: with one loop that either buffer
// is lent to, which the compiler keeps as a call, a picture 16 pixels wide took 9 % longer.
fn convolve_short(
    src: &[u8],
    dst: &mut [u8],
    lines: usize,
    len: usize,
    stride: usize,
    weights: &[f32],
    mode: EdgeMode,
)
    requires fact_1 { ConvolveLines src.now dst.old weights.now lines len stride }
    requires fact_2 { len + (length weights.now - 1) ≤ short / stride }
    ensures { dst.new ≡ passed (convolve mode weights.now) src.now lines len len stride }
{
    let mut line = [0.0f32; SHORT];
    for y in 0..lines {
        let size = len * stride;
        let start = y * size;
        block_sums::convolve_whole(
            &mut line,
            src,
            start,
            &mut dst[start..start + size],
            len,
            stride,
            0,
            len,
            weights,
            mode,
        );
    }
}

// Each of `lines` lines of any elements, in blocks as large as there is room for.
fn convolve_long(
    src: &[u8],
    dst: &mut [u8],
    lines: usize,
    len: usize,
    stride: usize,
    weights: &[f32],
    mode: EdgeMode,
)
    requires { ConvolveLines src.now dst.old weights.now lines len stride }
    ensures { dst.new ≡ passed (convolve mode weights.now) src.now lines len len stride }
{
    let most = BLOCK / stride.min(block_sums::WHOLE);
    let mut line = [0.0f32; LINE];
    each_line(&mut line, src, dst, lines, len, stride, most, weights, mode);
}

// Each of `lines` lines of len elements of stride bytes, convolved. The rows of a picture of pixels are h lines of w
// pixels, and its columns are one line of h rows; those of four planes are 4h lines of w bytes, and four lines of h rows.
// The large blocks are called twice, so that they stay a function of their own: as a part of this one their 32 KiB would be on the stack of small
// pictures too.
pub fn convolve_lines(
    src: &[u8],
    dst: &mut [u8],
    lines: usize,
    len: usize,
    stride: usize,
    weights: &[f32],
    mode: EdgeMode,
)
    requires { ConvolveLines src.now dst.old weights.now lines len stride }
    ensures { dst.new ≡ passed (convolve mode weights.now) src.now lines len len stride }
{
    if FEW < lines {
        convolve_long(src, dst, lines, len, stride, weights, mode);
    } else if SHORT / stride < len + weights.len() - 1 {
        convolve_long(src, dst, lines, len, stride, weights, mode);
    } else {
        convolve_short(src, dst, lines, len, stride, weights, mode);
    }
}

// Lines turned, convolved as one line, and turned back. What lies in picture is room for the one line. whole_lines has the same three calls round
// its own convolution: one function for both would take a trait with its contract and two types that have it, which is longer than the two.
fn convolve_turned(
    picture: &mut [u8],
    scratch: &mut [u8],
    w: usize,
    lines: usize,
    lanes: usize,
    weights: &[f32],
    mode: EdgeMode,
)
    requires { ConvolveLines picture.old scratch.old weights.now lines w lanes }
    ensures { scratch.new ≡ passed (convolve mode weights.now) picture.old lines w w lanes }
{
    turns::turn(picture, scratch, lines, w, lanes);
    convolve_lines(scratch, picture, 1, w, lines * lanes, weights, mode);
    turns::turn(picture, scratch, w, lines, lanes);
}

// Whether it pays to turn lines of len elements, to convolve them as one line and to turn them back: it saves what the ends of each line cost,
// which grows with the taps. Lines of up to 8 elements more than there are taps gain by it, of single bytes 11 more, and of a few lines only short
// ones. Nothing rests on it but time: the bytes are the same either way.
fn pays(len: usize, lines: usize, lanes: usize, taps: usize) -> bool {
    let free = if lanes == 1 { 11 } else { 8 };
    len / 8 + 1 < lines && len.saturating_sub(free) <= taps
}

// Lines that are a level's rows. Rows of one element are one line of one element, of all their bytes: so few lanes at a time are not worth a
// block.
fn convolve_rows(
    picture: &mut [u8],
    scratch: &mut [u8],
    w: usize,
    lines: usize,
    lanes: usize,
    weights: &[f32],
    mode: EdgeMode,
)
    requires { ConvolveLines picture.old scratch.old weights.now lines w lanes }
    ensures { scratch.new ≡ passed (convolve mode weights.now) picture.old lines w w lanes }
{
    if w == 1 {
        convolve_lines(picture, scratch, 1, 1, lines * lanes, weights, mode);
    } else if pays(w, lines, lanes, weights.len()) {
        convolve_turned(picture, scratch, w, lines, lanes, weights, mode);
    } else {
        convolve_lines(picture, scratch, lines, w, lanes, weights, mode);
    }
}

// A level convolved, in any form: rows to scratch, then columns back.
pub fn convolve_form(
    picture: &mut [u8],
    scratch: &mut [u8],
    s: LevelSize,
    form: Form,
    weights: &[f32],
    mode: EdgeMode,
)
    requires fact_1 { Formed form }
    requires fact_2 { Sized s }
    requires fact_3 { length picture.old ≡ form_bytes form s.w s.h }
    requires fact_4 { length scratch.old ≡ form_bytes form s.w s.h }
    requires fact_5 { Kernel weights.now }
    ensures { picture.new ≡ form_pass form (convolve mode weights.now) s s picture.old }
{
    let w = s.width();
    let h = s.height();
    convolve_rows(
        picture,
        scratch,
        w,
        form.planes * h,
        form.lanes,
        weights,
        mode,
    );
    convolve_lines(
        scratch,
        picture,
        form.planes,
        h,
        w * form.lanes,
        weights,
        mode,
    );
}
