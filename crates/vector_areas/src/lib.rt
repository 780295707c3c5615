// The functions that are lent a table of words.
#![tactic(auto)]

ghost use Rattle.vector_parts.specs.Parts.{PartWithin};

use face_areas::areas;
use vector_buffers::{bounds, buffers, left};
use vector_parts::parts::Part;
use vector_parts::replies::{Reply, UNSET};
use vector_parts::{parts, replies};
use vector_values::{head, values};
use vector_words::words;

fn build(v: &[u64], picture: &[u8], table: &mut [u32]) -> Reply {
    let w = head::word(v, 1);
    let h = head::word(v, 2);
    replies::plain(areas::corbelrush_area_build(picture, w, h, table))
}

fn box_sum(v: &[u64], table: &[u32]) -> Reply {
    let mut sum = u64::from(UNSET);
    let number = areas::corbelrush_area_box(
        table,
        head::word(v, 1),
        head::word(v, 2),
        head::word(v, 13),
        head::word(v, 14),
        head::word(v, 20),
        head::word(v, 21),
        &mut sum,
    );
    replies::two(number, sum, 0)
}

fn update(v: &[u64], table: &mut [u32]) -> Reply {
    let w = head::word(v, 1);
    let h = head::word(v, 2);
    let place = head::number(v, 20);
    let old = values::byte(head::number(v, 17));
    let new = values::byte(head::number(v, 18));
    replies::plain(areas::corbelrush_area_update(table, w, h, place, old, new))
}

fn call(v: &[u64], picture: &[u8], table: &mut [u32]) -> Reply {
    match head::number(v, 0) {
        18 => build(v, picture, table),
        19 => box_sum(v, table),
        _ => update(v, table),
    }
}

// Whether a vector's alphas are bytes, and the sides of its box words.
fn small(v: &[u64]) -> bool {
    let words = |i| head::number(v, i) <= u64::from(u32::MAX);
    let bytes = |i| head::number(v, i) <= u64::from(u8::MAX);
    bytes(17) && bytes(18) && (head::number(v, 0) != 19 || words(20) && words(21))
}

// Whether a vector's list is words, its other numbers are as the call takes them, and no work buffer and no other buffer is lent.
fn tabled(v: &[u64], table: Part) -> bool
    requires { PartWithin v.now table }
{
    replies::idle(v)
        && parts::other(v).is_some_and(|other| other.count == 0)
        && small(v)
        && bounds::part_under(v, table, 1 << 32)
}

// Whether the call does what the vector says.
pub fn agrees(v: &[u64]) -> bool {
    let (Some(bytes), Some(numbers)) = (parts::bytes(v), parts::list(v)) else {
        return false;
    };
    if !tabled(v, numbers) {
        return false;
    }
    let picture = buffers::bytes(v, bytes);
    let mut table = words::words(v, numbers);
    let r = call(v, &picture[..bytes.count], &mut table[..numbers.count]);
    left::bytes(v, r, &picture) && words::words_left(v, numbers, &table)
}
