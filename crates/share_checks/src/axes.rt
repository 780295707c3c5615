// The shares along one axis, in rows as long as the longest side.
ghost use Rattle.std.specs.Prelude.{◌≡◌, take};
ghost use Rattle.picture.specs.Build.{build};
ghost use Rattle.share_laws.specs.Share.{axis_share};
ghost use Rattle.back_passes.specs.Worth.{Blank};
ghost use Rattle.share_checks.specs.Needs.{AxisAsked, RowReady};

use backwards::LevelSide;
use picture::EdgeMode;

// The shares of all inputs in output o, in the first elements of a row of zeros. The work row is zero before and after.
// The depth, the numerators and the edge rule stay three parameters, here and above: `axis_shares` and the entries take them so.
pub fn fill_axis(
    work: &mut [u32],
    row: &mut [u32],
    side: LevelSide,
    n: u32,
    numerators: &[u32],
    mode: EdgeMode,
    o: usize,
)
    requires fact_1 { AxisAsked side.s n numerators.now o }
    requires fact_2 { RowReady side.s work.old }
    requires fact_3 { RowReady side.s row.old }
    ensures row_after { take side.s row.new ≡ build side.s (axis_share mode numerators.now n side.s o) }
    ensures blank { Blank work.new }
{
    let s = side.length();
    backwards::axis_shares(&mut work[..s], &mut row[..s], side, n, numerators, mode, o);
}
