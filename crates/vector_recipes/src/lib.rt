// The function that is lent a list of recipes: lists of eight, since an array has a length that is known.
#![tactic(auto)]

ghost use Rattle.std.specs.Prelude.{◌≡◌, ◌≤◌};
ghost use Rattle.picture.specs.Answer.{answered, lent_copy};
ghost use Rattle.vector_parts.specs.Parts.{PartWithin};
ghost use Rattle.recipes.specs.Chain.{chain_left, chain_outcome};

use recipe_checks::Step;
use std::array;
use vector_buffers::{bounds, buffers, left};
use vector_parts::parts::Part;
use vector_parts::replies::{Reply, UNSET};
use vector_parts::{parts, replies};
use vector_values::head;

// The recipe whose thirteen words begin at a place.
fn step_in(words: &[u64], at: usize) -> Step
    requires { at ≤ 512 }
{
    Step {
        operation: head::word(words, at),
        kernel: head::word(words, at + 1),
        taps: head::word(words, at + 2),
        n: head::word(words, at + 3),
        edge: head::word(words, at + 4),
        composite: head::word(words, at + 5),
        dx: head::float(words, at + 6),
        dy: head::float(words, at + 7),
        strength: head::float(words, at + 8),
        red: head::float(words, at + 9),
        green: head::float(words, at + 10),
        blue: head::float(words, at + 11),
        alpha: head::float(words, at + 12),
    }
}

fn eight(words: &[u64]) -> [Step; 8] {
    array::from_fn(|i| step_in(words, 13 * i))
}

// The call itself, with the array lent whole. It answers the number, as the function for C does.
fn lent(
    picture: &mut [u8],
    w: u32,
    h: u32,
    scratch: &mut [u8],
    copy: &mut [u8],
    steps: [Step; 8],
    table: &[f32],
    index: &mut u64,
) -> u32
    ensures { answered result (chain_left index.new (lent_copy picture.new scratch.new copy.new)) ≡ chain_outcome picture.old w h scratch.old copy.old steps table.now }
{
    face_recipes::corbelrush_recipes(picture, w, h, scratch, copy, &steps, table, index)
}

fn call(
    v: &[u64],
    steps: [Step; 8],
    picture: &mut [u8],
    scratch: &mut [u8],
    copy: &mut [u8],
    table: &[f32],
) -> Reply {
    let mut index = u64::from(UNSET);
    let w = head::word(v, 1);
    let h = head::word(v, 2);
    let number = lent(picture, w, h, scratch, copy, steps, table, &mut index);
    replies::two(number, index, 0)
}

// Whether a vector's list is eight recipes of words, which stay, and no other buffer is lent.
fn listed(v: &[u64], list: Part) -> bool
    requires { PartWithin v.now list }
{
    parts::other(v).is_some_and(|other| other.count == 0)
        && list.count == 104
        && list.after == list.before
        && bounds::part_under(v, list, 1 << 32)
}

// The call that a vector says, whose recipes are a part of it, and whether it does what the vector says.
fn called(v: &[u64], list: Part, bytes: Part, kernels: Part) -> bool
    requires list_within { PartWithin v.now list }
    requires bytes_within { PartWithin v.now bytes }
    requires kernels_within { PartWithin v.now kernels }
{
    let words = buffers::numbers_from(v, list.before, list.count);
    let mut picture = buffers::bytes(v, bytes);
    let mut scratch = buffers::work(0);
    let mut copy = buffers::work(0);
    let table = buffers::floats(v, kernels);
    let r = call(
        v,
        eight(&words),
        &mut picture[..bytes.count],
        &mut scratch[..head::length(v, 15)],
        &mut copy[..head::length(v, 16)],
        &table[..kernels.count],
    );
    left::work(v, r, &picture, &scratch, &copy)
}

// Whether the call does what the vector says.
pub fn agrees(v: &[u64]) -> bool {
    let (Some(list), Some(bytes), Some(kernels)) = (
        parts::list(v),
        parts::bytes(v),
        parts::weights(v),
    ) else {
        return false;
    };
    listed(v, list) && called(v, list, bytes, kernels)
}
