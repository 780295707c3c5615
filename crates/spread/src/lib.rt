// The spread report: how far a kernel and the decimations around it spread a pixel.
#![tactic(auto)]

ghost use Rattle.std.specs.Prelude.{◌≡◌, ◌*◌, ◌^◌, ◌≤◌};
ghost use Rattle.picture.specs.Refusal.{max_decimations};
ghost use Rattle.binary32.specs.Grid.{numerator};
ghost use Rattle.spread.specs.Spread.{WholeKernel, moment_of, decimation_term, spread_of, report, reported};

use picture::Refusal;

// How many units half a square full-size pixel has.
const HALF_PIXEL: u64 = 65536;

// A spread, in units of 1/131072 of a square full-size pixel.
#[derive(Clone, Copy)]
pub struct Spread {
    pub units: u64,
}

// The numerator of a weight over 65536, and 0 where it is off the grid.
#[tactic(auto, unfolding(binary32::specs::Grid::grid_weight, binary32::specs::Grid::numerator))]
fn numerator(x: f32) -> u64
    ensures { result ≡ numerator x }
{
    u64::from(binary32::numerator_of(x).unwrap_or(0))
}

// The sum of numerator times squared distance from the middle tap.
fn moment(weights: &[f32]) -> u64
    requires { WholeKernel weights.now }
    ensures { result ≡ moment_of weights.now }
{
    let middle = weights.len() / 2;
    let mut sum: u64 = 0;
    for (j, weight) in weights.iter().enumerate() {
        let d = j.abs_diff(middle) as u64;
        sum += numerator(*weight) * (d * d);
    }
    sum
}

// Twice the square of how much wider the kernel is after n doublings.
fn scale(n: u32) -> u64
    requires { n ≤ max_decimations }
    ensures { result ≡ 2 * 4 ^ n }
{
    2 << (2 * n)
}

// What n decimations add: (4^n - 1) / 2 square full-size pixels.
fn decimation_term(n: u32) -> u64
    requires { n ≤ max_decimations }
    ensures { result ≡ decimation_term n }
{
    HALF_PIXEL * (scale(n) / 2 - 1)
}

// The spread of a kernel with n decimations around it.
fn spread_of(weights: &[f32], n: u32) -> Spread
    requires { WholeKernel weights.now × (n ≤ max_decimations) }
    ensures { result.units ≡ spread_of weights.now n }
{
    Spread {
        units: scale(n) * moment(weights) + decimation_term(n),
    }
}

// The spread of a blur with these weights and n decimations. It gives refusals 4, 6 and 11.
#[tactic(auto, unfolding(picture::specs::Refusal::number_of, picture::specs::Refusal::number, picture::specs::Refusal::first_of, picture::specs::Refusal::first_else, picture::specs::Answer::settled, crate::specs::Spread::reported), using(crate::proofs::Moments::kernel, crate::proofs::Scales::shallow))]
pub fn report(weights: &[f32], n: u32) -> Result<Spread, Refusal>
    ensures { report result ≡ reported weights.now n }
{
    picture::refuse_if(picture::wrong_taps(weights.len()), Refusal::WrongTaps)?;
    picture::refuse_if(picture::too_deep(n), Refusal::TooDeep)?;
    picture::refuse_if(binary32::off_grid(weights), Refusal::OffGrid)?;
    Ok(spread_of(weights, n))
}
