// Loops over lanes: bytes made floats, weighted sums of floats, and sums made bytes. Each goes over values that lie one after the
// other, with no branch inside, so that the compiler makes vector code of it.
#![tactic(auto)]

ghost use Rattle.std.specs.Prelude.{◌≡◌, ℕ, ◌+◌, ◌≤◌, ◌<◌, T, length, get_or};
ghost use Rattle.std.specs.Float.{nan};
ghost use Rattle.binary32.specs.Ranges.{nonneg};
ghost use Rattle.binary32.specs.Round.{to_byte};
ghost use Rattle.picture.specs.Spans.{Span, Run};
ghost use Rattle.lanes.specs.Lanes.{widened, add_tap, lane_sum, lane_byte, Reaches, Weighable, group_room, Grouped};

// The most lanes whose sums are held in registers: eight of four lanes each, or four of eight, so that as many sums are under way as it takes
// to hide how long one addition takes.
const GROUP: usize = 32;

// The n bytes of src from s on, as floats into line from a on.
pub fn widen(line: &mut [f32], a: usize, n: usize, src: &[u8], s: usize)
    requires fact_1 { a + n ≤ length line.old }
    requires fact_2 { s + n ≤ length src.now }
    ensures { Run nan line.old line.new a n (λ i. widened (get_or src.now (s + i) 0)) }
{
    for i in 0..n {
        line[a + i] = src[s + i] as f32;
    }
}

// One tap more for the first n sums of acc.
fn add_tap(acc: &mut [f32], n: usize, line: &[f32], a: usize, k: f32)
    requires fact_1 { n ≤ length acc.old }
    requires fact_2 { a + n ≤ length line.now }
    ensures { Run nan acc.old acc.new 0 n (λ i. add_tap (get_or acc.old i nan) (get_or line.now (a + i) nan) k) }
{
    for i in 0..n {
        acc[i] = acc[i] + line[a + i] * k;
    }
}

// The first n sums of acc: the values of line from a on, under all weights in order. Under weight j stands the value j steps on. Each starts
// from 0.0, so that a product of minus zero makes no sum of minus zero.
fn sums(acc: &mut [f32], n: usize, line: &[f32], a: usize, step: usize, weights: &[f32])
    requires fact_1 { n ≤ length acc.old }
    requires fact_2 { Reaches line.now weights.now a step n }
    ensures { (i : ℕ) → i < n → get_or acc.new i nan ≡ lane_sum line.now a step weights.now (length weights.now) i }
{
    acc[..n].fill(0.0);
    for j in 0..weights.len() {
        add_tap(acc, n, line, a + j * step, weights[j]);
    }
}

// The first n sums of acc, rounded to bytes into dst from o on.
fn round_lanes(dst: &mut [u8], o: usize, n: usize, acc: &[f32])
    requires fact_1 { o + n ≤ length dst.old }
    requires fact_2 { n ≤ length acc.now }
    requires fact_3 { ((i : ℕ) → i < n → T (nonneg (get_or acc.now i nan))) }
    ensures { Run 0 dst.old dst.new o n (λ i. to_byte (get_or acc.now i nan)) }
{
    for i in 0..n {
        dst[o + i] = binary32::round_channel(acc[i]);
    }
}

// n lanes of line from a on, summed under all weights, as bytes into dst from o on. acc is room for the sums.
fn weigh_group(
    dst: &mut [u8],
    o: usize,
    n: usize,
    acc: &mut [f32],
    line: &[f32],
    a: usize,
    step: usize,
    weights: &[f32],
)
    requires fact_1 { o + n ≤ length dst.old }
    requires fact_2 { n ≤ length acc.old }
    requires fact_3 { Weighable line.now weights.now a step n }
    ensures { Run 0 dst.old dst.new o n (lane_byte line.now a step weights.now) }
{
    sums(acc, n, line, a, step, weights);
    round_lanes(dst, o, n, acc);
}

// Of n lanes those from `first` on, in groups of `size` while there are as many, into dst from o on: answers the first lane that is left. Where
// it is called with a number for `size`, the compiler keeps a group's sums in registers from the first tap to the rounding. It counts by hand, since
// the lane that it comes to is the answer.
fn weigh_groups(
    dst: &mut [u8],
    o: usize,
    first: usize,
    n: usize,
    size: usize,
    line: &[f32],
    a: usize,
    step: usize,
    weights: &[f32],
) -> usize
    requires fact_1 { o + n ≤ length dst.old }
    requires fact_2 { first ≤ n }
    requires fact_3 { (0 < size) × (size ≤ group_room) }
    requires fact_4 { Weighable line.now weights.now a step n }
    ensures { Grouped first n size result × Span 0 dst.old dst.new o first result (lane_byte line.now a step weights.now) }
{
    let mut acc = [0.0f32; GROUP];
    let mut i = first;
    while size <= n - i {
        weigh_group(dst, o + i, size, &mut acc, line, a + i, step, weights);
        i += size;
    }
    i
}

// Of n lanes all that fill groups as large as registers hold: answers the first lane that is left. Three or five weights are lent as so many,
// a number that the compiler knows, so that the loop over them is laid out flat; with more, x86-64 has too few registers to gain by it.
fn weigh_large(
    dst: &mut [u8],
    o: usize,
    n: usize,
    line: &[f32],
    a: usize,
    step: usize,
    weights: &[f32],
) -> usize
    requires fact_1 { o + n ≤ length dst.old }
    requires fact_2 { Weighable line.now weights.now a step n }
    ensures { Grouped 0 n group_room result × Span 0 dst.old dst.new o 0 result (lane_byte line.now a step weights.now) }
{
    match weights.len() {
        3 => weigh_groups(dst, o, 0, n, GROUP, line, a, step, &weights[..3]),
        5 => weigh_groups(dst, o, 0, n, GROUP, line, a, step, &weights[..5]),
        _ => weigh_groups(dst, o, 0, n, GROUP, line, a, step, weights),
    }
}

// n lanes of line from a on, summed under all weights, as bytes into dst from o on: in groups as large as registers hold, and what is left in
// smaller ones, down to single lanes.
pub fn weigh(
    dst: &mut [u8],
    o: usize,
    n: usize,
    line: &[f32],
    a: usize,
    step: usize,
    weights: &[f32],
)
    requires fact_1 { o + n ≤ length dst.old }
    requires fact_2 { Weighable line.now weights.now a step n }
    ensures { Run 0 dst.old dst.new o n (lane_byte line.now a step weights.now) }
{
    let many = weigh_large(dst, o, n, line, a, step, weights);
    let some = weigh_groups(dst, o, many, n, 8, line, a, step, weights);
    let few = weigh_groups(dst, o, some, n, 4, line, a, step, weights);
    weigh_groups(dst, o, few, n, 1, line, a, step, weights);
}
