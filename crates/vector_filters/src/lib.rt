// The functions that are lent work buffers.
#![tactic(auto)]

use face_files::plates;
use face_filters::filters;
use vector_buffers::{buffers, left};
use vector_parts::replies::Reply;
use vector_parts::{parts, replies};
use vector_values::head;

fn blur(v: &[u64], picture: &mut [u8], scratch: &mut [u8], weights: &[f32]) -> Reply {
    let w = head::word(v, 1);
    let h = head::word(v, 2);
    let n = head::word(v, 3);
    let edge = head::word(v, 4);
    let strength = head::float(v, 5);
    replies::plain(filters::corbelrush_blur(picture, w, h, scratch, weights, n, strength, edge))
}

fn shadow(
    v: &[u64],
    picture: &mut [u8],
    scratch: &mut [u8],
    copy: &mut [u8],
    weights: &[f32],
) -> Reply {
    replies::plain(filters::corbelrush_shadow(
        picture,
        head::word(v, 1),
        head::word(v, 2),
        scratch,
        copy,
        weights,
        head::word(v, 3),
        head::word(v, 4),
        head::float(v, 6),
        head::float(v, 7),
        head::float(v, 5),
        head::float(v, 8),
        head::float(v, 9),
        head::float(v, 10),
        head::float(v, 11),
        head::word(v, 12),
    ))
}

fn blur_planes(v: &[u64], planes: &mut [u8], scratch: &mut [u8], weights: &[f32]) -> Reply {
    let w = head::word(v, 1);
    let h = head::word(v, 2);
    let n = head::word(v, 3);
    let edge = head::word(v, 4);
    let strength = head::float(v, 5);
    replies::plain(face_planes::corbelrush_blur_planes(
        planes, w, h, scratch, weights, n, strength, edge,
    ))
}

fn shadow_planes(
    v: &[u64],
    planes: &mut [u8],
    scratch: &mut [u8],
    copy: &mut [u8],
    weights: &[f32],
) -> Reply {
    replies::plain(face_planes::corbelrush_shadow_planes(
        planes,
        head::word(v, 1),
        head::word(v, 2),
        scratch,
        copy,
        weights,
        head::word(v, 3),
        head::word(v, 4),
        head::float(v, 6),
        head::float(v, 7),
        head::float(v, 5),
        head::float(v, 8),
        head::float(v, 9),
        head::float(v, 10),
        head::float(v, 11),
        head::word(v, 12),
    ))
}

fn plate_job(plate: &mut [u8], scratch: &mut [u8]) -> Reply {
    replies::plain(plates::corbelrush_plate_job(plate, scratch))
}

fn call(
    v: &[u64],
    picture: &mut [u8],
    scratch: &mut [u8],
    copy: &mut [u8],
    weights: &[f32],
) -> Reply {
    match head::number(v, 0) {
        1 => blur(v, picture, scratch, weights),
        3 => shadow(v, picture, scratch, copy, weights),
        23 => blur_planes(v, picture, scratch, weights),
        25 => shadow_planes(v, picture, scratch, copy, weights),
        _ => plate_job(picture, scratch),
    }
}

// Whether the call does what the vector says.
pub fn agrees(v: &[u64]) -> bool {
    if !replies::alone(v) {
        return false;
    }
    let (Some(bytes), Some(kernel)) = (parts::bytes(v), parts::weights(v)) else {
        return false;
    };
    let mut picture = buffers::bytes(v, bytes);
    let mut scratch = buffers::work(0);
    let mut copy = buffers::work(0);
    let weights = buffers::floats(v, kernel);
    let r = call(
        v,
        &mut picture[..bytes.count],
        &mut scratch[..head::length(v, 15)],
        &mut copy[..head::length(v, 16)],
        &weights[..kernel.count],
    );
    left::work(v, r, &picture, &scratch, &copy)
}
