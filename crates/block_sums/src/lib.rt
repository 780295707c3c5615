// One block of a line convolved: it is filled with its values, which are summed lane by lane under each tap and
// rounded.
#![tactic(auto)]

ghost use Rattle.std.specs.Prelude.{◌+◌, ◌-◌, ◌*◌, ◌≤◌, ◌<◌, min, length};
ghost use Rattle.block_sums.specs.Bytes.{Convolved, Elements, Strip};
ghost use Rattle.block_sums.specs.Room.{Source, lanes, BlockRoom};

use picture::EdgeMode;

// Elements of at most this many bytes are taken whole: by themselves they are too few lanes for a loop, so that a block's elements are summed
// in one. Longer ones go in strips, a loop for each element.
pub const WHOLE: usize = 32;

// The most lanes of a strip. With 256, 33 taps gain at most some 5 % and small pictures lose far more: the buffer of values, zeroed once a
// pass, is then twice as large.
pub const LANES: usize = 128;

// Outputs x up to x + m of the line at start, whose elements are taken whole, into dst.
pub fn convolve_whole(
    line: &mut [f32],
    src: &[u8],
    start: usize,
    dst: &mut [u8],
    len: usize,
    stride: usize,
    x: usize,
    m: usize,
    weights: &[f32],
    mode: EdgeMode,
)
    requires fact_1 { Source src.now weights.now start len stride }
    requires fact_2 { (0 < m) × (x + m ≤ len) }
    requires fact_3 { len * stride ≤ length dst.old }
    requires fact_4 { (m + (length weights.now - 1)) * stride ≤ length line.old }
    ensures { Convolved mode weights.now src.now start len stride (Elements stride x (x + m)) dst.old dst.new }
{
    let taps = weights.len();
    let more = taps - 1;
    blocks::fill_whole(line, m + more, src, start, len, stride, x, taps / 2, mode);
    lanes::weigh(dst, x * stride, m * stride, line, 0, stride, weights);
}

// Of outputs x up to x + m of the line at start, n lanes from lane `from` on, into dst.
fn convolve_strip(
    line: &mut [f32],
    src: &[u8],
    start: usize,
    dst: &mut [u8],
    len: usize,
    stride: usize,
    x: usize,
    m: usize,
    from: usize,
    n: usize,
    weights: &[f32],
    mode: EdgeMode,
)
    requires fact_1 { Source src.now weights.now start len stride }
    requires fact_2 { (0 < m) × (x + m ≤ len) }
    requires fact_3 { len * stride ≤ length dst.old }
    requires fact_4 { (m + (length weights.now - 1)) * n ≤ length line.old }
    requires fact_5 { (0 < n) × (from + n ≤ stride) }
    ensures { Convolved mode weights.now src.now start len stride (Strip stride x (x + m) from (from + n)) dst.old dst.new }
{
    let taps = weights.len();
    let more = taps - 1;
    blocks::fill(
        line,
        n,
        0,
        m + more,
        src,
        start,
        len,
        stride,
        from,
        x,
        taps / 2,
        mode,
    );
    for i in 0..m {
        lanes::weigh(dst, (x + i) * stride + from, n, line, i * n, n, weights);
    }
}

// Outputs x up to x + m of the line at start, strip by strip, into dst. It counts by hand, since the last strip may be narrower.
fn convolve_strips(
    line: &mut [f32],
    src: &[u8],
    start: usize,
    dst: &mut [u8],
    len: usize,
    stride: usize,
    x: usize,
    m: usize,
    weights: &[f32],
    mode: EdgeMode,
)
    requires fact_1 { Source src.now weights.now start len stride }
    requires fact_2 { (0 < m) × (x + m ≤ len) }
    requires fact_3 { len * stride ≤ length dst.old }
    requires fact_4 { (m + (length weights.now - 1)) * min stride lanes ≤ length line.old }
    ensures { Convolved mode weights.now src.now start len stride (Elements stride x (x + m)) dst.old dst.new }
{
    let mut from = 0;
    while from < stride {
        let n = LANES.min(stride - from);
        convolve_strip(
            line, src, start, dst, len, stride, x, m, from, n, weights, mode,
        );
        from += n;
    }
}

// Outputs x up to x + m of the line at start, whole or in strips, into dst.
pub fn convolve_block(
    line: &mut [f32],
    src: &[u8],
    start: usize,
    dst: &mut [u8],
    len: usize,
    stride: usize,
    x: usize,
    m: usize,
    weights: &[f32],
    mode: EdgeMode,
)
    requires fact_1 { Source src.now weights.now start len stride }
    requires fact_2 { x + m ≤ len }
    requires fact_3 { len * stride ≤ length dst.old }
    requires fact_4 { BlockRoom line.old stride m }
    ensures { Convolved mode weights.now src.now start len stride (Elements stride x (x + m)) dst.old dst.new }
{
    if stride <= WHOLE {
        convolve_whole(line, src, start, dst, len, stride, x, m, weights, mode);
    } else {
        convolve_strips(line, src, start, dst, len, stride, x, m, weights, mode);
    }
}
