// What taps read of a line, worked out backwards.
ghost use Rattle.std.specs.Prelude.{◌+◌, ◌*◌, ◌<◌, ◌^◌, length};
ghost use Rattle.edges.specs.Edges.{sample, Reach};
ghost use Rattle.back_passes.specs.Worth.{total, Gained};
ghost use Rattle.back_passes.specs.Steps.{tap_sum, TapsReady};

use crate::rows::add;
use edges::extend;
use picture::EdgeMode;

// Adds to what the element is worth that the coordinate c - d reads.
fn add_tap(row: &mut [u32], c: usize, d: usize, more: u32, mode: EdgeMode)
    requires fact_1 { Reach (length row.old) c d }
    requires fact_2 { total row.old + more < 2 ^ 32 }
    ensures { Gained row.old row.new (λ l. more * sample mode (length row.old) l c d) }
{
    if let Some(i) = extend(c, d, row.len(), mode) {
        add(row, i, more);
    }
}

// Adds what the elements are worth that taps from the coordinate c - d on read, for an output that is worth v.
pub fn carry_taps(row: &mut [u32], c: usize, d: usize, v: u32, taps: &[u32], mode: EdgeMode)
    requires { TapsReady row.old c d v taps.now }
    ensures { Gained row.old row.new (λ l. v * tap_sum mode taps.now (length row.old) l c d) }
{
    for (j, tap) in taps.iter().enumerate() {
        add_tap(row, c + j, d, v * *tap, mode);
    }
}
