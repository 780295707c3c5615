// Binary32 values: the ranges that entries accept, rounding to a channel or to a whole offset, and
// the grid of weights.
#![tactic(auto)]

ghost use Rattle.std.specs.Prelude.{◌≡◌, ◌*◌, ◌≤◌, false, T, if◌then◌else◌};
ghost use Rattle.std.specs.Float.Ieee.{lt};
ghost use Rattle.std.specs.Float.Ieee.Positive.{num, den};
ghost use Rattle.binary32.specs.Ranges.{zero32, finite, outside_unit, any_outside, nonneg};
ghost use Rattle.binary32.specs.Round.{top32, round_half_up, to_byte, held_size, round_offset};
ghost use Rattle.binary32.specs.Grid.{grid_weight, off_grid};

// A whole offset: plus - minus, where one of them is 0.
#[derive(Clone, Copy)]
pub struct Offset {
    pub plus: usize,
    pub minus: usize,
}

// Neither NaN nor infinite.
#[tactic(auto, unfolding(crate::specs::Ranges::finite), using(crate::proofs::Ranges::finite_is))]
pub fn is_finite(x: f32) -> bool
    ensures { result ≡ finite x }
{
    x.is_finite()
}

// NaN, below 0 or above 1.
#[tactic(auto, unfolding(crate::specs::Ranges::outside_unit))]
fn outside_unit(x: f32) -> bool
    ensures { result ≡ outside_unit x }
{
    x.is_nan() || x < 0.0 || 1.0 < x
}

// Whether one of the values is.
pub fn any_outside(xs: &[f32]) -> bool
    ensures { result ≡ any_outside xs.now }
{
    for x in xs {
        if outside_unit(*x) {
            return true;
        }
    }
    false
}

// x, and 255.0 where that is less.
fn cap(x: f32) -> f32
    ensures { result ≡ (if lt x top32 then x else top32) }
{
    if x < 255.0 { x } else { 255.0 }
}

// y to the nearest whole number, halves upward. Both sums are whole, a tie going to the even one:
// up in one of them and down in the other. So half of their sum takes a tie up.
fn nearest(y: f32) -> u8
    requires fact_1 { T (nonneg y) }
    requires fact_2 { num y ≤ 255 * den y }
    ensures { result ≡ round_half_up y }
{
    let a = f32::to_bits(y + 8388608.0);
    let b = f32::to_bits(y + 8388609.0);
    (((a + b) / 2) % 256) as u8
}

// x as a channel: to the nearest whole number, halves upward, at most 255.
pub fn round_channel(x: f32) -> u8
    requires { T (nonneg x) }
    ensures { result ≡ to_byte x }
{
    let y = cap(x);
    nearest(y)
}

// x to the nearest whole number, halves upward, at most `bound`; 0 for a NaN. Twice x is exact.
fn held_size(x: f32, bound: usize) -> usize
    requires fact_1 { lt x zero32 ≡ false }
    requires fact_2 { bound ≤ 4294967296 }
    ensures { result ≡ held_size bound x }
{
    if x < 4294967296.0 {
        let twice = std::num::truncating_f32_to_u64(x * 2.0);
        let size = ((twice + 1) / 2) as usize;
        return size.min(bound);
    }
    if x.is_nan() { 0 } else { bound }
}

// x to the nearest whole number, halves away from zero, at most `bound` either way; 0 for a NaN.
pub fn round_offset(x: f32, bound: usize) -> Offset
    requires { bound ≤ 4294967296 }
    ensures { result ≡ round_offset bound x }
{
    if x < 0.0 {
        Offset {
            plus: 0,
            minus: held_size(-x, bound),
        }
    } else {
        Offset {
            plus: held_size(x, bound),
            minus: 0,
        }
    }
}

// The numerator of a weight over 65536, where that is whole. 65536 times a weight is exact.
pub fn numerator_of(x: f32) -> Option<u32>
    ensures { result ≡ grid_weight x }
{
    if outside_unit(x) {
        return None;
    }
    let scaled = x * 65536.0;
    let whole = std::num::truncating_f32_to_u64(scaled);
    if (whole as f32) < scaled {
        return None;
    }
    Some(whole as u32)
}

// A weight is not on the grid, or the numerators do not sum to 65536. A sum above that stays above.
pub fn off_grid(xs: &[f32]) -> bool
    ensures { result ≡ off_grid xs.now }
{
    let mut sum: u32 = 0;
    for x in xs {
        let Some(m) = numerator_of(*x) else {
            return true;
        };
        sum += m;
        if 65536 < sum {
            return true;
        }
    }
    sum != 65536
}
