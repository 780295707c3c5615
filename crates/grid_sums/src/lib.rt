// Kernels of whole numbers: their sum, and runs of a line summed lane by lane under all numerators and rounded. Nothing here is a float.
#![tactic(auto)]

ghost use Rattle.std.specs.Prelude.{◌≡◌, ℕ, ◌+◌, ◌*◌, ◌/◌, ◌%◌, ◌≤◌, ◌<◌, length, get_or};
ghost use Rattle.picture.specs.Spans.{Run};
ghost use Rattle.edges.specs.Edges.{sample, Reach};
ghost use Rattle.passes.specs.Written.{lane};
ghost use Rattle.grid_sums.specs.Sums.{heavy, grid_sum, whole_convolve};
ghost use Rattle.grid_sums.specs.Room.{most_sum, sum_room, Numerators, TapRun, SumRun};

use picture::EdgeMode;

// A run of a line: n lanes, from lane `from` of element x on, and whether all that their taps read lies inside.
#[derive(Clone, Copy)]
pub struct LineRun {
    pub x: usize,
    pub from: usize,
    pub n: usize,
    pub inner: bool,
}

// Whether numerators sum to more than 65536. It stops there, so that the sum of any list has room.
pub fn is_heavy(numerators: &[u32]) -> bool
    ensures { result ≡ heavy numerators.now }
{
    let mut total: u64 = 0;
    for numerator in numerators {
        total += *numerator as u64;
        if 65536 < total {
            return true;
        }
    }
    false
}

// A byte in a weight of 16 bits: the processors' vectors multiply such a pair at once, and one of 32 bits not.
fn weigh_byte(b: u8, k: u16) -> u32
    ensures { (result ≡ b * k) × (result ≤ most_sum) }
{
    b as u32 * k as u32
}

// The n bytes of src from a on, in a weight, to the first n sums of acc.
fn add_lanes(acc: &mut [u32], n: usize, src: &[u8], a: usize, k: u16)
    requires fact_1 { n ≤ length acc.old }
    requires fact_2 { a + n ≤ length src.now }
    requires fact_3 { ((i : ℕ) → i < n → get_or acc.old i 0 ≤ sum_room) }
    ensures { Run 0 acc.old acc.new 0 n (λ i. get_or acc.old i 0 + get_or src.now (a + i) 0 * k) }
{
    for i in 0..n {
        acc[i] = acc[i] + weigh_byte(src[a + i], k);
    }
}

// The same. A weight of 0 adds nothing, and the sums are not read for it.
fn add_part(acc: &mut [u32], n: usize, src: &[u8], a: usize, k: u16)
    requires fact_1 { n ≤ length acc.old }
    requires fact_2 { a + n ≤ length src.now }
    requires fact_3 { ((i : ℕ) → i < n → get_or acc.old i 0 ≤ sum_room) }
    ensures { Run 0 acc.old acc.new 0 n (λ i. get_or acc.old i 0 + get_or src.now (a + i) 0 * k) }
{
    if 0 < k {
        add_lanes(acc, n, src, a, k);
    }
}

// The same in a numerator. 65536, which can only stand alone, is 0 and twice 32768. Its 16 bits are taken first, before the test: under a test
// that shows it below 65536 the compiler would multiply 32 bits after all, in twice the time.
fn add_tap(acc: &mut [u32], n: usize, src: &[u8], a: usize, k: u32)
    requires fact_1 { n ≤ length acc.old }
    requires fact_2 { a + n ≤ length src.now }
    requires fact_3 { k ≤ 65536 }
    requires fact_4 { ((i : ℕ) → i < n → get_or acc.old i 0 ≤ most_sum) }
    ensures { Run 0 acc.old acc.new 0 n (λ i. get_or acc.old i 0 + get_or src.now (a + i) 0 * k) }
{
    add_part(acc, n, src, a, (k % 65536) as u16);
    if 65535 < k {
        add_part(acc, n, src, a, 32768);
        add_part(acc, n, src, a, 32768);
    }
}

// Of the element that c - d reads, a run's lanes, in a numerator, to the first sums of acc; where all of it lies inside, the lanes go on over the
// elements after it.
fn add_sample(
    acc: &mut [u32],
    src: &[u8],
    start: usize,
    len: usize,
    stride: usize,
    run: LineRun,
    c: usize,
    d: usize,
    k: u32,
    mode: EdgeMode,
)
    requires fact_1 { (run.n ≤ length acc.old) × (k ≤ 65536) }
    requires fact_2 { ((i : ℕ) → i < run.n → get_or acc.old i 0 ≤ most_sum) }
    requires fact_3 { (0 < stride) × (start + len * stride ≤ length src.now) }
    requires fact_4 { Reach len c d }
    requires fact_5 { TapRun run.inner c d len stride run.from run.n }
    ensures { Run 0 acc.old acc.new 0 run.n (λ i. get_or acc.old i 0 + sample mode len (lane src.now start stride ((run.from + i) % stride)) (c + (run.from + i) / stride) d * k) }
{
    if run.inner {
        add_tap(acc, run.n, src, start + ((c - d) * stride + run.from), k);
    } else if let Some(i) = edges::extend(c, d, len, mode) {
        add_tap(acc, run.n, src, start + (i * stride + run.from), k);
    }
}

// The first sums of acc: the lanes of a run, under all numerators.
fn add_taps(
    acc: &mut [u32],
    src: &[u8],
    start: usize,
    len: usize,
    stride: usize,
    run: LineRun,
    numerators: &[u32],
    mode: EdgeMode,
)
    requires fact_1 { run.n ≤ length acc.old }
    requires fact_2 { Numerators numerators.now }
    requires fact_3 { SumRun src.now start len stride run.x run.from run.n run.inner (length numerators.now) }
    ensures { (i : ℕ) → i < run.n → get_or acc.new i 0 ≡ grid_sum mode numerators.now len (lane src.now start stride ((run.from + i) % stride)) (run.x + (run.from + i) / stride) }
{
    acc[..run.n].fill(0);
    let d = numerators.len() / 2;
    for j in 0..numerators.len() {
        add_sample(
            acc,
            src,
            start,
            len,
            stride,
            run,
            run.x + j,
            d,
            numerators[j],
            mode,
        );
    }
}

// The first n sums of acc over 65536, rounded, halves upward, into dst from o on.
fn round_sums(dst: &mut [u8], o: usize, n: usize, acc: &[u32])
    requires fact_1 { o + n ≤ length dst.old }
    requires fact_2 { n ≤ length acc.now }
    requires fact_3 { ((i : ℕ) → i < n → get_or acc.now i 0 ≤ most_sum) }
    ensures { Run 0 dst.old dst.new o n (λ i. (get_or acc.now i 0 + 32768) / 65536) }
{
    for i in 0..n {
        dst[o + i] = ((acc[i] + 32768) / 65536) as u8;
    }
}

// A run of the line at start, convolved into dst from o on.
pub fn weigh(
    dst: &mut [u8],
    o: usize,
    acc: &mut [u32],
    src: &[u8],
    start: usize,
    len: usize,
    stride: usize,
    run: LineRun,
    numerators: &[u32],
    mode: EdgeMode,
)
    requires fact_1 { o + run.n ≤ length dst.old }
    requires fact_2 { run.n ≤ length acc.old }
    requires fact_3 { Numerators numerators.now }
    requires fact_4 { SumRun src.now start len stride run.x run.from run.n run.inner (length numerators.now) }
    ensures { Run 0 dst.old dst.new o run.n (λ i. whole_convolve mode numerators.now len (lane src.now start stride ((run.from + i) % stride)) (run.x + (run.from + i) / stride)) }
{
    add_taps(acc, src, start, len, stride, run, numerators, mode);
    round_sums(dst, o, run.n, acc);
}
