// The functions that are lent weights alone.
use face_grades::grades;
use vector_buffers::buffers;
use vector_parts::replies::{Reply, UNSET};
use vector_parts::{parts, replies};
use vector_values::head;

fn spread(v: &[u64], weights: &[f32]) -> Reply {
    let mut found = u64::from(UNSET);
    let n = head::word(v, 3);
    let number = grades::corbelrush_spread(weights, n, &mut found);
    replies::two(number, found, 0)
}

// Whether the call does what the vector says.
pub fn agrees(v: &[u64]) -> bool {
    if !replies::alone(v) || !replies::idle(v) {
        return false;
    }
    parts::weights(v).is_some_and(|kernel| {
        let weights = buffers::floats(v, kernel);
        replies::stored(v, spread(v, &weights[..kernel.count]))
    })
}
