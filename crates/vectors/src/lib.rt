// Whether the library does what a stored vector says. The functions stand by what they are lent, each family in a crate or
// module of its own that fills its buffers, makes the call and compares what is left.
#![tactic(auto)]

mod kernels;
mod shape;

use vector_values::head;

// Whether the library does what a vector says; no for one that is broken.
pub fn agrees(v: &[u64]) -> bool {
    if !shape::whole(v) {
        return false;
    }

    // The numbers stand in the stored vectors: a type for them would need this table, and one more that makes it of a number.
    match head::number(v, 0) {
        1 | 3 | 9 | 23 | 25 => vector_filters::agrees(v),
        2 | 4..=6 | 8 | 10 | 12 | 24 => vector_pictures::agrees(v),
        7 => kernels::agrees(v),
        11 | 13 | 14 | 21 | 22 => vector_files::agrees(v),
        15 | 16 => vector_lists::agrees(v),
        17 => vector_wholes::agrees(v),
        18..=20 => vector_areas::agrees(v),
        26 => vector_recipes::agrees(v),
        27 | 28 => vector_shares::agrees(v),
        _ => false,
    }
}
