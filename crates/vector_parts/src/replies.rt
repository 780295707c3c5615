// What a call answers, and whether it is what the vector says.
ghost use Rattle.std.specs.Prelude.{◌≡◌};
ghost use Rattle.vector_parts.specs.Replies.{reply, pair_at, stored_reply, count_of, no_other};

use crate::parts;
use crate::parts::Part;
use vector_values::head;

// What an out-parameter holds before a call.
pub const UNSET: u32 = 3735928559;

// The number returned, and what is behind the out-parameters in their order, or 0.
#[derive(Clone, Copy, PartialEq, Eq)]
pub struct Reply {
    pub number: u64,
    pub first: u64,
    pub second: u64,
    pub third: u64,
    pub fourth: u64,
}

// A reply with two out-parameters at most.
pub fn two(number: u32, first: u64, second: u64) -> Reply
    ensures { result ≡ reply number first second 0 0 }
{
    Reply {
        number: u64::from(number),
        first,
        second,
        third: 0,
        fourth: 0,
    }
}

pub fn plain(number: u32) -> Reply
    ensures { result ≡ reply number 0 0 0 0 }
{
    two(number, 0, 0)
}

// Whether the number and the out-parameters are the stored ones.
#[tactic(auto, unfolding(crate::specs::Replies::stored_reply, crate::specs::Replies::pair_at))]
pub fn stored(v: &[u64], given: Reply) -> bool
    ensures { result ≡ stored_reply v.now given }
{
    given
        == Reply {
            number: head::number(v, 22),
            first: head::number(v, 25),
            second: head::number(v, 26),
            third: head::number(v, 27),
            fourth: head::number(v, 28),
        }
}

// Whether a vector says that no work buffer is cleared.
#[tactic(auto, unfolding(crate::specs::Replies::pair_at))]
pub fn idle(v: &[u64]) -> bool
    ensures { result ≡ pair_at v.now 23 0 24 0 }
{
    head::number(v, 23) == 0 && head::number(v, 24) == 0
}

// How many numbers a list has, and none where it is not there.
fn count(p: Option<Part>) -> usize
    ensures { result ≡ count_of p }
{
    p.map_or(0, |p| p.count)
}

// Whether a vector has no list and no other buffer, as for a call that is lent neither.
#[tactic(auto, unfolding(crate::specs::Replies::no_other))]
pub fn alone(v: &[u64]) -> bool
    ensures { result ≡ no_other v.now }
{
    count(parts::list(v)) == 0 && count(parts::other(v)) == 0
}
