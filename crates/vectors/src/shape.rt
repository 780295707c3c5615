// Whether some numbers are a vector: none is missing, left over or too large.
ghost use Rattle.std.specs.Prelude.{◌≡◌, ◌≤◌, length};
ghost use Rattle.vectors.specs.Shape.{head_fits, lists_fit, whole_vector};

use vector_buffers::bounds::{part_under, range_under};
use vector_parts::parts;
use vector_parts::parts::HEAD;

// Whether the numbers in front are those of a call: words of 32 bits where the call takes such, and lengths that buffers have.
#[tactic(auto, unfolding(crate::specs::Shape::head_fits))]
fn head_fits(v: &[u64]) -> bool
    requires { 29 ≤ length v.now }
    ensures { result ≡ head_fits v.now }
{
    range_under(v, 0, 19, 1 << 32) && range_under(v, 15, 2, 2049) && range_under(v, 22, 3, 1 << 32)
}

// Whether the lists are there, end where the numbers do, and hold bit patterns and bytes.
#[tactic(auto, unfolding(crate::specs::Shape::lists_fit))]
fn lists_fit(v: &[u64]) -> bool
    ensures { result ≡ lists_fit v.now }
{
    let (Some(weights), Some(bytes), Some(other)) = (
        parts::weights(v),
        parts::bytes(v),
        parts::other(v),
    ) else {
        return false;
    };
    other.end == v.len()
        && part_under(v, weights, 1 << 32)
        && part_under(v, bytes, 256)
        && part_under(v, other, 256)
}

#[tactic(auto, unfolding(crate::specs::Shape::whole_vector))]
pub fn whole(v: &[u64]) -> bool
    ensures { result ≡ whole_vector v.now }
{
    HEAD <= v.len() && head_fits(v) && lists_fit(v)
}
