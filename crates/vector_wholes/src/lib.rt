// The function that is lent numerators and a work buffer.
#![tactic(auto)]

use face_filters::wholes;
use vector_buffers::{buffers, left};
use vector_parts::replies::Reply;
use vector_parts::{parts, replies};
use vector_values::head;
use vector_words::words;

fn call(v: &[u64], picture: &mut [u8], scratch: &mut [u8], numerators: &[u32]) -> Reply {
    let w = head::word(v, 1);
    let h = head::word(v, 2);
    let n = head::word(v, 3);
    let edge = head::word(v, 4);
    replies::plain(wholes::corbelrush_blur_whole(picture, w, h, scratch, numerators, n, edge))
}

// Whether the call does what the vector says, which clears no second work buffer.
pub fn agrees(v: &[u64]) -> bool {
    let (Some(bytes), Some(kernel)) = (parts::bytes(v), parts::weights(v)) else {
        return false;
    };
    if !replies::alone(v) || head::number(v, 24) != 0 {
        return false;
    }
    let mut picture = buffers::bytes(v, bytes);
    let mut scratch = buffers::work(0);
    let numerators = words::words(v, kernel);
    let r = call(
        v,
        &mut picture[..bytes.count],
        &mut scratch[..head::length(v, 15)],
        &numerators[..kernel.count],
    );
    left::bytes(v, r, &picture) && buffers::work_left(head::number(v, 23), &scratch)
}
