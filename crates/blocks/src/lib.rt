// The values that a convolution reads: bytes made floats once for a block of elements. Edges are worked out as a
// block is filled, once for each element.
#![tactic(auto)]

ghost use Rattle.std.specs.Prelude.{◌+◌, ◌*◌, ◌≤◌, ◌<◌, length};
ghost use Rattle.std.specs.Float.{nan};
ghost use Rattle.picture.specs.Spans.{Run};
ghost use Rattle.edges.specs.Edges.{sample, Reach};
ghost use Rattle.passes.specs.Written.{lane};
ghost use Rattle.lanes.specs.Lanes.{widened};
ghost use Rattle.blocks.specs.Blocks.{block_value, Made};

use picture::EdgeMode;

// Of the element that c - d reads, n lanes from lane `from` on, as floats into line from a on: zeros where there is no such element.
fn fill_element(
    line: &mut [f32],
    a: usize,
    n: usize,
    src: &[u8],
    start: usize,
    len: usize,
    stride: usize,
    from: usize,
    c: usize,
    d: usize,
    mode: EdgeMode,
)
    requires fact_1 { a + n ≤ length line.old }
    requires fact_2 { from + n ≤ stride }
    requires fact_3 { start + len * stride ≤ length src.now }
    requires fact_4 { Reach len c d }
    ensures { Run nan line.old line.new a n (λ k. widened (sample mode len (lane src.now start stride (from + k)) c d)) }
{
    match edges::extend(c, d, len, mode) {
        Some(i) => lanes::widen(line, a, n, src, start + i * stride + from),
        None => line[a..a + n].fill(0.0),
    }
}

// Of a block, the elements `first` up to `last`, which x + first - d up to x + last - d read: n lanes of each from lane `from` on, into line.
pub fn fill(
    line: &mut [f32],
    n: usize,
    first: usize,
    last: usize,
    src: &[u8],
    start: usize,
    len: usize,
    stride: usize,
    from: usize,
    x: usize,
    d: usize,
    mode: EdgeMode,
)
    requires fact_1 { (first ≤ last) × (last * n ≤ length line.old) }
    requires fact_2 { from + n ≤ stride }
    requires fact_3 { start + len * stride ≤ length src.now }
    requires fact_4 { Reach len (x + last) d }
    ensures { Made nan (block_value mode src.now start len stride from n x d) (λ t. (first * n ≤ t) × (t < last * n)) line.old line.new }
{
    for e in first..last {
        fill_element(
            line,
            e * n,
            n,
            src,
            start,
            len,
            stride,
            from,
            x + e,
            d,
            mode,
        );
    }
}

// A block of `count` whole elements, the first of which x - d reads, into line. Those inside lie in one run and are widened by one loop; the
// edge rule is asked only for those before and after it.
pub fn fill_whole(
    line: &mut [f32],
    count: usize,
    src: &[u8],
    start: usize,
    len: usize,
    stride: usize,
    x: usize,
    d: usize,
    mode: EdgeMode,
)
    requires fact_1 { (x < len) × (d < count) × (0 < stride) }
    requires fact_2 { count * stride ≤ length line.old }
    requires fact_3 { start + len * stride ≤ length src.now }
    requires fact_4 { Reach len (x + count) d }
    ensures { Made nan (block_value mode src.now start len stride 0 stride x d) (λ t. t < count * stride) line.old line.new }
{
    let low = d.saturating_sub(x);
    let high = count.min(len + d - x);
    fill(line, stride, 0, low, src, start, len, stride, 0, x, d, mode);
    lanes::widen(
        line,
        low * stride,
        (high - low) * stride,
        src,
        start + (x + low - d) * stride,
    );
    fill(
        line, stride, high, count, src, start, len, stride, 0, x, d, mode,
    );
}
