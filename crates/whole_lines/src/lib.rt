// The whole-number convolution of lines and levels, run by run. Nothing here is a float.
#![tactic(auto)]

ghost use Rattle.std.specs.Prelude.{◌≡◌, false, ◌*◌, ◌≤◌, ◌<◌, ◌^◌, length};
ghost use Rattle.picture.specs.Sizes.{side_room, level_bytes, Sized};
ghost use Rattle.picture.specs.Refusal.{wrong_taps};
ghost use Rattle.picture.specs.Spans.{Run};
ghost use Rattle.passes.specs.Forms.{of_pixels, form_pass};
ghost use Rattle.passes.specs.Written.{line_byte, passed};
ghost use Rattle.blend.specs.Parts.{Room};
ghost use Rattle.grid_sums.specs.Sums.{whole_convolve};
ghost use Rattle.grid_sums.specs.Room.{Numerators};
ghost use Rattle.whole_lines.specs.Lines.{sum_lanes, RunAt, WholeLines};

use grid_sums::LineRun;
use picture::{EdgeMode, LevelSize};

// The most lanes of a run: their sums are 4 KiB of stack, zeroed once a pass.
const LANES: usize = 1024;

// A band is the rows that this many pixels begin, 32 KiB: turned at once, a larger picture would leave the cache with each turn.
const BAND: usize = 8192;

// The run at byte p of a line. Where each tap reads inside it goes on to the last element of which that holds; else it ends with its element.
fn run_at(len: usize, stride: usize, taps: usize, p: usize) -> LineRun
    requires fact_1 { wrong_taps taps ≡ false }
    requires fact_2 { (0 < stride) × (len ≤ side_room) × (p < len * stride) }
    requires fact_3 { len * stride < 2 ^ 64 }
    ensures { RunAt len stride taps p result }
{
    let d = taps / 2;
    let after = taps - 1 - d;
    let x = p / stride;
    let from = p % stride;
    if d <= x && x + after < len {
        return LineRun {
            x,
            from,
            n: LANES.min((len - after) * stride - p),
            inner: true,
        };
    }
    LineRun {
        x,
        from,
        n: LANES.min(stride - from),
        inner: false,
    }
}

// The line at start, run by run, into the line at o. It counts by hand, since each run says how long it is.
fn whole_line(
    acc: &mut [u32],
    src: &[u8],
    start: usize,
    dst: &mut [u8],
    o: usize,
    len: usize,
    stride: usize,
    numerators: &[u32],
    mode: EdgeMode,
)
    requires fact_1 { sum_lanes ≤ length acc.old }
    requires fact_2 { 0 < stride }
    requires fact_3 { Room src.now dst.old start stride len o len }
    requires fact_4 { Numerators numerators.now }
    ensures { Run 0 dst.old dst.new o (len * stride) (line_byte (whole_convolve mode numerators.now) src.now start len stride) }
{
    let size = len * stride;
    let mut p = 0;
    while p < size {
        let run = run_at(len, stride, numerators.len(), p);
        grid_sums::weigh(
            dst,
            o + p,
            acc,
            src,
            start,
            len,
            stride,
            run,
            numerators,
            mode,
        );
        p += run.n;
    }
}

// Each of `lines` lines of len elements of stride bytes, convolved. The rows of a picture are h lines of w pixels; its columns are one line of h
// rows. `each_line` of convolve is this loop round its own convolution: a trait for both would be longer than what they share.
fn whole_lines(
    src: &[u8],
    dst: &mut [u8],
    lines: usize,
    len: usize,
    stride: usize,
    numerators: &[u32],
    mode: EdgeMode,
)
    requires { WholeLines src.now dst.old numerators.now lines len stride }
    ensures { dst.new ≡ passed (whole_convolve mode numerators.now) src.now lines len len stride }
{
    let mut acc = [0u32; LANES];
    let size = len * stride;
    for y in 0..lines {
        let o = y * size;
        whole_line(&mut acc, src, o, dst, o, len, stride, numerators, mode);
    }
}

// Rows turned, convolved as one line, and turned back, as `convolve_turned` of convolve does. What lies in picture is room for the one line.
fn whole_turned(
    picture: &mut [u8],
    scratch: &mut [u8],
    w: usize,
    h: usize,
    numerators: &[u32],
    mode: EdgeMode,
)
    requires { WholeLines picture.old scratch.old numerators.now h w 4 }
    ensures { scratch.new ≡ passed (whole_convolve mode numerators.now) picture.old h w w 4 }
{
    turns::turn(picture, scratch, h, w, 4);
    whole_lines(scratch, picture, 1, w, h * 4, numerators, mode);
    turns::turn(picture, scratch, w, h, 4);
}

// The same in bands, each turned by itself. It counts by hand, since the last band may have fewer rows.
fn whole_bands(
    picture: &mut [u8],
    scratch: &mut [u8],
    w: usize,
    h: usize,
    numerators: &[u32],
    mode: EdgeMode,
)
    requires { WholeLines picture.old scratch.old numerators.now h w 4 }
    ensures { scratch.new ≡ passed (whole_convolve mode numerators.now) picture.old h w w 4 }
{
    let size = w * 4;
    let most = BAND / w + 1;
    let mut y = 0;
    while y < h {
        let rows = most.min(h - y);
        let start = y * size;
        let n = rows * size;
        whole_turned(
            &mut picture[start..start + n],
            &mut scratch[start..start + n],
            w,
            rows,
            numerators,
            mode,
        );
        y += rows;
    }
}

// Whether it pays to turn rows of len pixels, to convolve them as one line and to turn them back: it saves summing taps - 1 pixels of each row
// tap by tap, which costs as much as both turns of some 3 * taps * taps pixels, and less is saved where rows are few. Nothing rests on it but
// time: the bytes are the same either way.
fn pays(len: usize, lines: usize, taps: usize) -> bool
    requires { (0 < lines) × (0 < taps) }
{
    len / taps / taps < (lines - 1).min(3)
}

// The rows of a level, convolved into scratch.
fn whole_rows(
    picture: &mut [u8],
    scratch: &mut [u8],
    w: usize,
    h: usize,
    numerators: &[u32],
    mode: EdgeMode,
)
    requires { WholeLines picture.old scratch.old numerators.now h w 4 }
    ensures { scratch.new ≡ passed (whole_convolve mode numerators.now) picture.old h w w 4 }
{
    if pays(w, h, numerators.len()) {
        whole_bands(picture, scratch, w, h, numerators, mode);
    } else {
        whole_lines(picture, scratch, h, w, 4, numerators, mode);
    }
}

// A level convolved: rows to scratch, then columns back.
pub fn whole_level(
    picture: &mut [u8],
    scratch: &mut [u8],
    s: LevelSize,
    numerators: &[u32],
    mode: EdgeMode,
)
    requires fact_1 { Sized s }
    requires fact_2 { length picture.old ≡ level_bytes s }
    requires fact_3 { length scratch.old ≡ level_bytes s }
    requires fact_4 { Numerators numerators.now }
    ensures { picture.new ≡ form_pass of_pixels (whole_convolve mode numerators.now) s s picture.old }
{
    let w = s.width();
    let h = s.height();
    whole_rows(picture, scratch, w, h, numerators, mode);
    whole_lines(scratch, picture, 1, h, w * 4, numerators, mode);
}
