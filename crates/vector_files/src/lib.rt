// The functions that are lent two buffers with content: a plate and a picture for it, a picture and its file, or a picture and
// its planes.
#![tactic(auto)]

use face_files::{images, plates};
use vector_buffers::{buffers, left};
use vector_parts::replies::{Reply, UNSET};
use vector_parts::{parts, replies};
use vector_values::head;

fn plate_add(v: &[u64], buffer: &mut [u8], picture: &[u8]) -> Reply {
    let mut after = u64::from(UNSET);
    let number = plates::corbelrush_plate_add(
        buffer,
        head::number(v, 19),
        picture,
        head::word(v, 1),
        head::word(v, 2),
        head::word(v, 17),
        head::half(v, 18),
        &mut after,
    );
    replies::two(number, after, 0)
}

fn pam_read(picture: &mut [u8], file: &[u8]) -> Reply {
    let mut w = UNSET;
    let mut h = UNSET;
    let mut written = u64::from(UNSET);
    let number = images::corbelrush_pam_read(file, picture, &mut w, &mut h, &mut written);
    Reply {
        number: u64::from(number),
        first: u64::from(w),
        second: u64::from(h),
        third: written,
        fourth: 0,
    }
}

fn pam_write(v: &[u64], picture: &[u8], file: &mut [u8]) -> Reply {
    let mut written = u64::from(UNSET);
    let mut place = u64::from(UNSET);
    let w = head::word(v, 1);
    let h = head::word(v, 2);
    let number = images::corbelrush_pam_write(picture, w, h, file, &mut written, &mut place);
    replies::two(number, written, place)
}

fn to_planes(v: &[u64], picture: &[u8], planes: &mut [u8]) -> Reply {
    let w = head::word(v, 1);
    let h = head::word(v, 2);
    replies::plain(face_planes::corbelrush_to_planes(picture, w, h, planes))
}

fn from_planes(v: &[u64], planes: &[u8], picture: &mut [u8]) -> Reply {
    let w = head::word(v, 1);
    let h = head::word(v, 2);
    replies::plain(face_planes::corbelrush_from_planes(planes, w, h, picture))
}

fn call(v: &[u64], bytes: &mut [u8], other: &mut [u8]) -> Reply {
    match head::number(v, 0) {
        11 => plate_add(v, bytes, other),
        13 => pam_read(bytes, other),
        14 => pam_write(v, bytes, other),
        21 => to_planes(v, bytes, other),
        _ => from_planes(v, bytes, other),
    }
}

// Whether a vector has no list and no sheet past 16 bits, and no work buffer is cleared.
fn filed(v: &[u64]) -> bool {
    replies::idle(v)
        && parts::list(v).is_some_and(|list| list.count == 0)
        && head::number(v, 18) <= u64::from(u16::MAX)
}

// Whether the call does what the vector says.
pub fn agrees(v: &[u64]) -> bool {
    let (Some(first), Some(second)) = (parts::bytes(v), parts::other(v)) else {
        return false;
    };
    if !filed(v) {
        return false;
    }
    let mut bytes = buffers::bytes(v, first);
    let mut other = buffers::bytes(v, second);
    let r = call(v, &mut bytes[..first.count], &mut other[..second.count]);
    left::bytes(v, r, &bytes) && buffers::bytes_left(v, second, &other)
}
