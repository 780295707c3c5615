// A list of pairs of 64-bit words, filled with the numbers of a vector and compared with them.
#![tactic(auto)]

ghost use Rattle.std.specs.Prelude.{◌≡◌, map, ◌+◌, ◌*◌, ◌≤◌, ◌<◌, length};
ghost use Rattle.picture.specs.Build.{build};
ghost use Rattle.vector_values.specs.Values.{tells};
ghost use Rattle.vector_parts.specs.Parts.{PartWithin};
ghost use Rattle.vector_points.specs.Points.{point_in, stored_points};

use std::array;
use vector_buffers::buffers;
use vector_parts::parts::Part;

// The most points of a list.
pub const MOST_POINTS: usize = 1024;

fn point_in(numbers: &[u64], i: usize) -> [u64; 2]
    requires { i * 2 + 1 < length numbers.now }
    ensures { result ≡ point_in numbers.now i }
{
    let at = i * 2;
    [numbers[at], numbers[at + 1]]
}

// Numbers of a vector from a place on, two by two.
pub fn points_from(v: &[u64], at: usize, n: usize) -> [[u64; 2]; MOST_POINTS]
    requires { at + n ≤ length v.now }
    ensures value { result ≡ stored_points v.now at n }
    ensures value_2 { 1024 ≡ length result }
{
    let numbers = buffers::numbers_from(v, at, n);
    array::from_fn(
        |i: usize| -> [u64; 2]
            requires { i * 2 + 1 < length numbers }
            ensures { result ≡ point_in numbers i }
        { point_in(&numbers, i) },
    )
}

// A part's numbers, two by two, as they are before the call.
pub fn points(v: &[u64], p: Part) -> [[u64; 2]; MOST_POINTS]
    requires { PartWithin v.now p }
    ensures value { result ≡ stored_points v.now p.before p.count }
    ensures value_2 { 1024 ≡ length result }
{
    points_from(v, p.before, p.count)
}

// Whether a list holds a part's points as they are after the call.
pub fn points_left(v: &[u64], p: Part, found: &[[u64; 2]; MOST_POINTS]) -> bool
    requires { PartWithin v.now p }
    ensures { tells result (found.now ≡ stored_points v.now p.after p.count) }
{
    *found == points_from(v, p.after, p.count)
}
