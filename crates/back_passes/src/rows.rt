// Rows of numbers: what each element of a line is worth.
ghost use Rattle.std.specs.Prelude.{◌+◌, ◌*◌, ◌≤◌, ◌<◌, ◌^◌, length};
ghost use Rattle.back_passes.specs.Worth.{total, Gained, NextNonzero};

// Adds to what element i is worth.
pub fn add(row: &mut [u32], i: usize, more: u32)
    requires fact_1 { i < length row.old }
    requires fact_2 { total row.old + more < 2 ^ 32 }
    ensures { Gained row.old row.new (λ l. more * l i) }
{
    row[i] = row[i] + more;
}

// The first element from `from` on that is not 0; the row's length where there is none.
pub fn next_nonzero(row: &[u32], from: usize) -> usize
    requires { from ≤ length row.now }
    ensures { NextNonzero row.now from result }
{
    for i in from..row.len() {
        if row[i] != 0 {
            return i;
        }
    }
    row.len()
}
