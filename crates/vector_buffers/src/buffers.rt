// Buffers filled with the numbers of a vector, and compared with them. Each has LONGEST elements: a call is lent its front,
// and what lies behind that is 0, or for a work buffer goes on as it is filled.
ghost use Rattle.std.specs.Prelude.{◌≡◌, map, ◌+◌, ◌≤◌, length};
ghost use Rattle.picture.specs.Build.{build};
ghost use Rattle.vector_values.specs.Values.{tells, byte_of, float_of};
ghost use Rattle.vector_parts.specs.Parts.{PartWithin};
ghost use Rattle.vector_buffers.specs.Buffers.{number_at, numbers_from, bytes_from, bytes_before, bytes_after, floats_before, work_byte, work_of, cleared_work};

use std::array;
use vector_parts::parts::Part;
use vector_values::values;
use vector_values::values::LONGEST;

// Number i of a buffer that holds n numbers of a vector, which begin at a place.
fn number_at(v: &[u64], at: usize, n: usize, i: usize) -> u64
    requires { at + n ≤ length v.now }
    ensures { result ≡ number_at v.now at n i }
{
    if i < n { v[at + i] } else { 0 }
}

// Numbers of a vector from a place on.
pub fn numbers_from(v: &[u64], at: usize, n: usize) -> [u64; LONGEST]
    requires { at + n ≤ length v.now }
    ensures value { result ≡ numbers_from v.now at n }
    ensures value_2 { 2048 ≡ length result }
{
    array::from_fn(|i| number_at(v, at, n, i))
}

fn bytes_from(v: &[u64], at: usize, n: usize) -> [u8; LONGEST]
    requires { at + n ≤ length v.now }
    ensures value { result ≡ bytes_from v.now at n }
    ensures value_2 { 2048 ≡ length result }
{
    array::from_fn(|i| values::byte(number_at(v, at, n, i)))
}

// A part's bytes, as they are before the call.
pub fn bytes(v: &[u64], p: Part) -> [u8; LONGEST]
    requires { PartWithin v.now p }
    ensures value { result ≡ bytes_before v.now p }
    ensures value_2 { 2048 ≡ length result }
{
    bytes_from(v, p.before, p.count)
}

// Whether a buffer holds a part's bytes as they are after the call.
pub fn bytes_left(v: &[u64], p: Part, found: &[u8; LONGEST]) -> bool
    requires { PartWithin v.now p }
    ensures { tells result (found.now ≡ bytes_after v.now p) }
{
    *found == bytes_from(v, p.after, p.count)
}

// Byte i of a work buffer whose first bytes are zero: never zero where it was not cleared.
fn work_byte(zeros: usize, i: usize) -> u8
    ensures { result ≡ work_byte zeros i }
{
    if i < zeros { 0 } else { (i % 251 + 1) as u8 }
}

// A work buffer: as before a call at 0, and as a call leaves it that clears its first bytes.
pub fn work(zeros: usize) -> [u8; LONGEST]
    ensures value { result ≡ work_of zeros }
    ensures value_2 { 2048 ≡ length result }
{
    array::from_fn(|i| work_byte(zeros, i))
}

// Whether exactly the first bytes of a work buffer are cleared.
pub fn work_left(zeros: u64, found: &[u8; LONGEST]) -> bool
    ensures { tells result (cleared_work zeros found.now) }
{
    zeros <= 2048 && *found == work(zeros as usize)
}

// A part's numbers as bit patterns of binary32.
pub fn floats(v: &[u64], p: Part) -> [f32; LONGEST]
    requires { PartWithin v.now p }
    ensures value { result ≡ floats_before v.now p }
    ensures value_2 { 2048 ≡ length result }
{
    array::from_fn(|i| values::float(number_at(v, p.before, p.count, i)))
}
