// A list of pairs of words, filled with the numbers of a vector and compared with them.
ghost use Rattle.std.specs.Prelude.{◌≡◌, ◌+◌, ◌≤◌, ◌<◌, [], length, get_or};
ghost use Rattle.vector_values.specs.Values.{tells};
ghost use Rattle.picture.specs.Build.{build};
ghost use Rattle.vector_parts.specs.Parts.{PartWithin};
ghost use Rattle.vector_pairs.specs.Pairs.{pair_of, pairs_from};

use std::array;
use vector_parts::parts::Part;
use vector_points::MOST_POINTS;
use vector_values::values;

// The most pairs of a list.
pub const MOST_PAIRS: usize = MOST_POINTS;

// The numbers of a point as words.
fn pair_of(point: [u64; 2]) -> [u32; 2]
    ensures { result ≡ pair_of point }
{
    let [a, b] = point;
    [values::word(a), values::word(b)]
}

// Point i of a list as words.
fn pair_at(points: &[[u64; 2]], i: usize) -> [u32; 2]
    requires { i < length points.now }
    ensures { result ≡ pair_of (get_or points.now i []) }
{
    pair_of(points[i])
}

fn pairs_from(v: &[u64], at: usize, n: usize) -> [[u32; 2]; MOST_PAIRS]
    requires { at + n ≤ length v.now }
    ensures value { result ≡ pairs_from v.now at n }
    ensures value_2 { 1024 ≡ length result }
{
    let points = vector_points::points_from(v, at, n);
    array::from_fn(
        |i: usize| -> [u32; 2]
            requires { i < length points }
            ensures { result ≡ pair_of (get_or points i []) }
        { pair_at(&points, i) },
    )
}

// A part's numbers, two by two, as they are before the call.
pub fn pairs(v: &[u64], p: Part) -> [[u32; 2]; MOST_PAIRS]
    requires { PartWithin v.now p }
    ensures value { result ≡ pairs_from v.now p.before p.count }
    ensures value_2 { 1024 ≡ length result }
{
    pairs_from(v, p.before, p.count)
}

// Whether a list holds a part's pairs as they are after the call.
pub fn pairs_left(v: &[u64], p: Part, found: &[[u32; 2]; MOST_PAIRS]) -> bool
    requires { PartWithin v.now p }
    ensures { tells result (found.now ≡ pairs_from v.now p.after p.count) }
{
    *found == pairs_from(v, p.after, p.count)
}
