// The functions that are lent numerators and no picture: a share, and a list of points.
#![tactic(auto)]

use face_shares::explains;
use vector_parts::replies::{Reply, UNSET};
use vector_parts::{parts, replies};
use vector_values::head;
use vector_words::words;

fn share(v: &[u64], numerators: &[u32]) -> Reply {
    let mut found = u64::from(UNSET);
    let number = explains::corbelrush_share(
        head::word(v, 1),
        head::word(v, 2),
        numerators,
        head::word(v, 3),
        head::word(v, 4),
        head::number(v, 20),
        head::number(v, 21),
        &mut found,
    );
    replies::two(number, found, 0)
}

fn shares(v: &[u64], numerators: &[u32], list: &mut [[u64; 2]]) -> Reply {
    let mut count = u64::from(UNSET);
    let number = explains::corbelrush_shares(
        head::word(v, 1),
        head::word(v, 2),
        numerators,
        head::word(v, 3),
        head::word(v, 4),
        head::number(v, 20),
        list,
        &mut count,
    );
    replies::two(number, count, 0)
}

fn call(v: &[u64], numerators: &[u32], list: &mut [[u64; 2]]) -> Reply {
    match head::number(v, 0) {
        27 => share(v, numerators),
        _ => shares(v, numerators, list),
    }
}

// Whether no work buffer and no buffer of bytes is lent.
fn bare(v: &[u64]) -> bool {
    replies::idle(v)
        && parts::bytes(v).is_some_and(|bytes| bytes.count == 0)
        && parts::other(v).is_some_and(|other| other.count == 0)
}

// Whether the call does what the vector says, whose list is pairs.
pub fn agrees(v: &[u64]) -> bool {
    let (Some(kernel), Some(points)) = (parts::weights(v), parts::list(v)) else {
        return false;
    };
    if !bare(v) || points.count % 2 != 0 {
        return false;
    }
    let numerators = words::words(v, kernel);
    let mut list = vector_points::points(v, points);
    let r = call(
        v,
        &numerators[..kernel.count],
        &mut list[..points.count / 2],
    );
    replies::stored(v, r) && vector_points::points_left(v, points, &list)
}
