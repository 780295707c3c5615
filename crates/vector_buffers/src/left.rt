// Whether what a call left is as the vector says: its reply and the bytes that it was lent, and its work buffers.
use crate::buffers;
use vector_parts::replies::Reply;
use vector_parts::{parts, replies};
use vector_values::head;
use vector_values::values::LONGEST;

// Whether the reply and the bytes are.
pub fn bytes(v: &[u64], r: Reply, found: &[u8; LONGEST]) -> bool {
    replies::stored(v, r) && parts::bytes(v).is_some_and(|p| buffers::bytes_left(v, p, found))
}

// Whether both work buffers are too.
pub fn work(
    v: &[u64],
    r: Reply,
    found: &[u8; LONGEST],
    scratch: &[u8; LONGEST],
    copy: &[u8; LONGEST],
) -> bool {
    bytes(v, r, found)
        && buffers::work_left(head::number(v, 23), scratch)
        && buffers::work_left(head::number(v, 24), copy)
}
