// Numbers of a vector that are below a bound.
ghost use Rattle.std.specs.Prelude.{◌≡◌, ◌+◌, ◌≤◌, length};
ghost use Rattle.vector_parts.specs.Parts.{PartWithin};
ghost use Rattle.vector_buffers.specs.Bounds.{range_under, part_under};

use crate::buffers;
use vector_parts::parts::Part;
use vector_values::values;

// Whether n numbers from a place on are below a bound.
pub fn range_under(v: &[u64], at: usize, n: usize, bound: u64) -> bool
    requires { at + n ≤ length v.now }
    ensures { result ≡ range_under v.now at n bound }
{
    let numbers = buffers::numbers_from(v, at, n);
    values::all_under(&numbers, bound)
}

// Whether the numbers of a list are below a bound, before the call and after it.
#[tactic(auto, unfolding(crate::specs::Bounds::part_under))]
pub fn part_under(v: &[u64], p: Part, bound: u64) -> bool
    requires { PartWithin v.now p }
    ensures { result ≡ part_under v.now p bound }
{
    range_under(v, p.before, p.count, bound) && range_under(v, p.after, p.count, bound)
}
