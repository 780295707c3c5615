// The functions that are lent a picture, its planes or a plate, and no other buffer.
#![tactic(auto)]

use face_files::plates;
use face_filters::filters;
use face_grades::grades;
use vector_buffers::{buffers, left};
use vector_parts::replies::{Reply, UNSET};
use vector_parts::{parts, replies};
use vector_values::{head, values};

// What a sheet that is an out-parameter holds before a call.
const UNSET_SHEET: u16 = 48879;

fn shift(v: &[u64], picture: &mut [u8]) -> Reply {
    let w = head::word(v, 1);
    let h = head::word(v, 2);
    let dx = head::float(v, 6);
    let dy = head::float(v, 7);
    replies::plain(filters::corbelrush_shift(picture, w, h, dx, dy))
}

fn shift_planes(v: &[u64], planes: &mut [u8]) -> Reply {
    let w = head::word(v, 1);
    let h = head::word(v, 2);
    let dx = head::float(v, 6);
    let dy = head::float(v, 7);
    replies::plain(face_planes::corbelrush_shift_planes(planes, w, h, dx, dy))
}

fn check(v: &[u64], picture: &[u8]) -> Reply {
    let mut found = UNSET;
    let mut place = u64::from(UNSET);
    let w = head::word(v, 1);
    let h = head::word(v, 2);
    let number = grades::corbelrush_check(picture, w, h, &mut found, &mut place);
    replies::two(number, u64::from(found), place)
}

fn view(v: &[u64], picture: &[u8]) -> Reply {
    let w = head::word(v, 1);
    let h = head::word(v, 2);
    let edge = head::word(v, 4);
    replies::plain(grades::corbelrush_view(picture, w, h, edge))
}

fn sample(v: &[u64], picture: &[u8]) -> Reply {
    let w = head::word(v, 1);
    let h = head::word(v, 2);
    let edge = head::word(v, 4);
    let x = values::signed(head::number(v, 13));
    let y = values::signed(head::number(v, 14));
    replies::plain(grades::corbelrush_sample(picture, w, h, edge, x, y))
}

fn plate_picture(v: &[u64], plate: &[u8]) -> Reply {
    let mut w = UNSET;
    let mut h = UNSET;
    let mut offset = u64::from(UNSET);
    let mut length = u64::from(UNSET);
    let index = head::word(v, 13);
    let number = plates::corbelrush_plate_picture(
        plate,
        index,
        &mut w,
        &mut h,
        &mut offset,
        &mut length,
    );
    Reply {
        number: u64::from(number),
        first: u64::from(w),
        second: u64::from(h),
        third: offset,
        fourth: length,
    }
}

fn plate_start(v: &[u64], buffer: &mut [u8]) -> Reply {
    let mut used = u64::from(UNSET);
    let version = head::word(v, 17);
    let number = plates::corbelrush_plate_start(buffer, version, &mut used);
    replies::two(number, used, 0)
}

fn plate_label(v: &[u64], plate: &[u8]) -> Reply {
    let mut unit = UNSET;
    let mut sheet = UNSET_SHEET;
    let index = head::word(v, 13);
    let number = plates::corbelrush_plate_label(plate, index, &mut unit, &mut sheet);
    replies::two(number, u64::from(unit), u64::from(sheet))
}

fn call(v: &[u64], picture: &mut [u8]) -> Reply {
    match head::number(v, 0) {
        2 => shift(v, picture),
        4 => check(v, picture),
        5 => view(v, picture),
        6 => sample(v, picture),
        8 => plate_picture(v, picture),
        10 => plate_start(v, picture),
        12 => plate_label(v, picture),
        _ => shift_planes(v, picture),
    }
}

// Whether the call does what the vector says.
pub fn agrees(v: &[u64]) -> bool {
    if !replies::alone(v) || !replies::idle(v) {
        return false;
    }
    let Some(bytes) = parts::bytes(v) else {
        return false;
    };
    let mut picture = buffers::bytes(v, bytes);
    let r = call(v, &mut picture[..bytes.count]);
    left::bytes(v, r, &picture)
}
