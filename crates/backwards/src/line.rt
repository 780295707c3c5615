// The exact blur along one line, worked out backwards, level by level.
ghost use Rattle.std.specs.Prelude.{◌≡◌, length};
ghost use Rattle.picture.specs.Build.{build};
ghost use Rattle.share_laws.specs.Share.{exact_line, axis_share};
ghost use Rattle.back_passes.specs.Worth.{Carried, Blank};
ghost use Rattle.backwards.specs.Needs.{LineReady, AxisReady};
ghost use Rattle.back_passes.specs.Steps.{exact_pass, PassReady};

use crate::side::LevelSide;
use back_passes::back::{PassKind, carry_pass};
use picture::EdgeMode;

// A pass backwards into a row of zeros; the outputs are then 0.
fn move_back(
    outputs: &mut [u32],
    row: &mut [u32],
    kind: PassKind,
    numerators: &[u32],
    mode: EdgeMode,
)
    requires fact_1 { PassReady kind outputs.old row.old numerators.now }
    requires fact_2 { Blank row.old }
    ensures carried { Carried outputs.old row.new (exact_pass kind mode numerators.now (length row.old)) }
    ensures blank { Blank outputs.new }
{
    carry_pass(outputs, row, kind, numerators, mode);
    outputs.fill(0);
}

// From what each output of the blur is worth to what each element of the line is, into a row of zeros; the outputs are then 0.
fn carry_line(
    outputs: &mut [u32],
    row: &mut [u32],
    side: LevelSide,
    n: u32,
    numerators: &[u32],
    mode: EdgeMode,
)
    requires { LineReady outputs.old row.old side.s n numerators.now }
    ensures carried { Carried outputs.old row.new (exact_line mode numerators.now n side.s) }
    ensures blank { Blank outputs.new }
{
    if n == 0 {
        move_back(outputs, row, PassKind::Convolve, numerators, mode);
    } else {
        let t = side.half();
        let k = t.length();
        move_back(outputs, &mut row[..k], PassKind::Double, numerators, mode);
        carry_line(&mut row[..k], &mut outputs[..k], t, n - 1, numerators, mode);
        move_back(&mut outputs[..k], row, PassKind::Halve, numerators, mode);
    }
}

// The share of each input in output o along one axis. Both rows are 0 before, and the work row is 0 again after.
pub fn axis_shares(
    work: &mut [u32],
    row: &mut [u32],
    side: LevelSide,
    n: u32,
    numerators: &[u32],
    mode: EdgeMode,
    o: usize,
)
    requires { AxisReady work.old row.old side.s n numerators.now o }
    ensures row_after { row.new ≡ build side.s (axis_share mode numerators.now n side.s o) }
    ensures blank { Blank work.new }
{
    work[o] = 1;
    carry_line(work, row, side, n, numerators, mode);
}
