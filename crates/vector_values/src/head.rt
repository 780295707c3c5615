// The numbers in front of a vector's lists, by their places.
ghost use Rattle.std.specs.Prelude.{◌≡◌, ◌≤◌, get_or};
ghost use Rattle.vector_values.specs.Values.{word_of, half_of, float_of, length_of};

use crate::values;
use crate::values::LONGEST;

// The number at a place, or 0 past the end.
pub fn number(v: &[u64], i: usize) -> u64
    ensures { result ≡ get_or v.now i 0 }
{
    v.get(i).copied().unwrap_or(0)
}

pub fn word(v: &[u64], i: usize) -> u32
    ensures { result ≡ word_of (get_or v.now i 0) }
{
    values::word(number(v, i))
}

pub fn half(v: &[u64], i: usize) -> u16
    ensures { result ≡ half_of (get_or v.now i 0) }
{
    values::half(number(v, i))
}

pub fn float(v: &[u64], i: usize) -> f32
    ensures { result ≡ float_of (get_or v.now i 0) }
{
    values::float(number(v, i))
}

// The number at a place as the length of a buffer, or 0 where no buffer is as long.
pub fn length(v: &[u64], i: usize) -> usize
    ensures value { result ≡ length_of (get_or v.now i 0) }
    ensures upper_bound { result ≤ 2048 }
{
    let n = number(v, i) as usize;
    if LONGEST < n { 0 } else { n }
}
