// The functions that are lent a picture and a list of pairs: a place and a pixel each.
#![tactic(auto)]

ghost use Rattle.vector_parts.specs.Parts.{PartWithin};

use face_grades::mends;
use vector_buffers::{bounds, buffers, left};
use vector_pairs::lists;
use vector_parts::parts::Part;
use vector_parts::replies::{Reply, UNSET};
use vector_parts::{parts, replies};
use vector_values::head;

fn mend(v: &[u64], picture: &mut [u8], list: &mut [[u32; 2]]) -> Reply {
    let mut count = u64::from(UNSET);
    let w = head::word(v, 1);
    let h = head::word(v, 2);
    let number = mends::corbelrush_mend(picture, w, h, list, &mut count);
    replies::two(number, count, 0)
}

fn rebuild(v: &[u64], picture: &mut [u8], list: &[[u32; 2]]) -> Reply {
    let w = head::word(v, 1);
    let h = head::word(v, 2);
    replies::plain(mends::corbelrush_rebuild(picture, w, h, list))
}

fn call(v: &[u64], picture: &mut [u8], list: &mut [[u32; 2]]) -> Reply {
    match head::number(v, 0) {
        15 => mend(v, picture, list),
        _ => rebuild(v, picture, list),
    }
}

// Whether a vector's list is pairs of words, and no work buffer and no other buffer is lent.
fn paired(v: &[u64], list: Part) -> bool
    requires { PartWithin v.now list }
{
    replies::idle(v)
        && parts::other(v).is_some_and(|other| other.count == 0)
        && list.count % 2 == 0
        && bounds::part_under(v, list, 1 << 32)
}

// Whether the call does what the vector says.
pub fn agrees(v: &[u64]) -> bool {
    let (Some(bytes), Some(changes)) = (parts::bytes(v), parts::list(v)) else {
        return false;
    };
    if !paired(v, changes) {
        return false;
    }
    let mut picture = buffers::bytes(v, bytes);
    let mut list = lists::pairs(v, changes);
    let r = call(
        v,
        &mut picture[..bytes.count],
        &mut list[..changes.count / 2],
    );
    left::bytes(v, r, &picture) && lists::pairs_left(v, changes, &list)
}
