// Words of 32 bits, filled with the numbers of a vector and compared with them.
ghost use Rattle.std.specs.Prelude.{◌≡◌, ◌+◌, ◌≤◌, ◌<◌, length, get_or};
ghost use Rattle.vector_values.specs.Values.{tells, word_of};
ghost use Rattle.vector_parts.specs.Parts.{PartWithin};
ghost use Rattle.vector_words.specs.Words.{words_from};

use std::array;
use vector_buffers::buffers;
use vector_parts::parts::Part;
use vector_values::values;
use vector_values::values::LONGEST;

// Number i of a list as a word.
fn word_at(numbers: &[u64], i: usize) -> u32
    requires { i < length numbers.now }
    ensures { result ≡ word_of (get_or numbers.now i 0) }
{
    values::word(numbers[i])
}

fn words_from(v: &[u64], at: usize, n: usize) -> [u32; LONGEST]
    requires { at + n ≤ length v.now }
    ensures value { result ≡ words_from v.now at n }
    ensures value_2 { 2048 ≡ length result }
{
    let numbers = buffers::numbers_from(v, at, n);
    array::from_fn(
        |i: usize| -> u32
            requires { i < length numbers }
            ensures { result ≡ word_of (get_or numbers i 0) }
        { word_at(&numbers, i) },
    )
}

// A part's words, as they are before the call.
pub fn words(v: &[u64], p: Part) -> [u32; LONGEST]
    requires { PartWithin v.now p }
    ensures value { result ≡ words_from v.now p.before p.count }
    ensures value_2 { 2048 ≡ length result }
{
    words_from(v, p.before, p.count)
}

// Whether a buffer holds a part's words as they are after the call.
pub fn words_left(v: &[u64], p: Part, found: &[u32; LONGEST]) -> bool
    requires { PartWithin v.now p }
    ensures { tells result (found.now ≡ words_from v.now p.after p.count) }
{
    *found == words_from(v, p.after, p.count)
}
