// The passes of the exact blur, each worked out backwards: from what its outputs are worth to what the elements it reads are.
ghost use Rattle.std.specs.Prelude.{◌*◌, length};
ghost use Rattle.back_passes.specs.Worth.{worth_of, Gained};
ghost use Rattle.back_passes.specs.Steps.{exact_pass, OutputReady, PassReady};

use crate::taps::carry_taps;
use picture::EdgeMode;

// A pass of the blur. It is a value, as the contracts speak of it (`exact_pass kind`, `gain kind`) and one function asks for it: a trait with three
// types would be no plainer.
#[derive(Clone, Copy)]
pub enum PassKind {
    Halve,
    Double,
    Convolve,
}

// Halving weighs 1, 3, 3, 1; doubling 1, 3 at an even output and 3, 1 at an odd one.
const HALVING: [u32; 4] = [1, 3, 3, 1];

const DOUBLING_EVEN: [u32; 2] = [1, 3];

const DOUBLING_ODD: [u32; 2] = [3, 1];

// Output y of a doubling that is worth v.
fn double_output(row: &mut [u32], y: usize, v: u32, numerators: &[u32], mode: EdgeMode)
    requires { OutputReady PassKind.Double row.old y v numerators.now }
    ensures { Gained row.old row.new (λ l. v * exact_pass PassKind.Double mode numerators.now (length row.old) l y) }
{
    if y % 2 == 0 {
        carry_taps(row, y / 2, 1, v, &DOUBLING_EVEN, mode);
    } else {
        carry_taps(row, y / 2, 0, v, &DOUBLING_ODD, mode);
    }
}

// Output x of a pass that is worth v.
fn carry_output(
    row: &mut [u32],
    x: usize,
    v: u32,
    kind: PassKind,
    numerators: &[u32],
    mode: EdgeMode,
)
    requires { OutputReady kind row.old x v numerators.now }
    ensures { Gained row.old row.new (λ l. v * exact_pass kind mode numerators.now (length row.old) l x) }
{
    match kind {
        PassKind::Halve => carry_taps(row, 2 * x, 1, v, &HALVING, mode),
        PassKind::Double => double_output(row, x, v, numerators, mode),
        PassKind::Convolve => carry_taps(row, x, numerators.len() / 2, v, numerators, mode),
    }
}

// A pass backwards. Nothing is carried from outputs that are worth nothing, which most are.
pub fn carry_pass(
    outputs: &[u32],
    row: &mut [u32],
    kind: PassKind,
    numerators: &[u32],
    mode: EdgeMode,
)
    requires { PassReady kind outputs.now row.old numerators.now }
    ensures { Gained row.old row.new (λ l. worth_of outputs.now (exact_pass kind mode numerators.now (length row.old) l)) }
{
    for (x, v) in outputs.iter().enumerate() {
        if *v != 0 {
            carry_output(row, x, *v, kind, numerators, mode);
        }
    }
}
