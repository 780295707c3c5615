// Where the lists of a vector lie: after the numbers in front come weights, list, bytes and other, one after the other.
ghost use Rattle.std.specs.Prelude.{◌≡◌, IfSome};
ghost use Rattle.vector_parts.specs.Parts.{counted_at, changed_of, weights_part, next_part, list_part, bytes_part, other_part, PartWithin};

use vector_values::values::LONGEST;

// The numbers in front of the lists.
pub const HEAD: usize = 29;

// A list of a vector: how many numbers it has, where they begin, before the call and after it, and where the next list begins.
#[derive(Clone, Copy)]
pub struct Part {
    pub count: usize,
    pub before: usize,
    pub after: usize,
    pub end: usize,
}

// The count at a place, and as many numbers, which the call does not change.
#[tactic(auto, unfolding(crate::specs::Parts::counted_at))]
fn counted(v: &[u64], at: usize) -> Option<Part>
    ensures value { result ≡ counted_at v.now at }
    ensures part_within { IfSome result (PartWithin v.now) }
{
    let count = *v.get(at)? as usize;
    let before = at + 1;
    if LONGEST < count || v.len() - before < count {
        return None;
    }
    Some(Part {
        count,
        before,
        after: before,
        end: before + count,
    })
}

// What stands after such a list: 0 where the call changes nothing, or 1 and the numbers afterwards.
#[tactic(auto, unfolding(crate::specs::Parts::changed_of))]
fn changed(v: &[u64], p: Part) -> Option<Part>
    requires { PartWithin v.now p }
    ensures value { result ≡ changed_of v.now p }
    ensures part_within { IfSome result (PartWithin v.now) }
{
    let flag = *v.get(p.end)?;
    let after = p.end + 1;
    match flag {
        0 => Some(Part { end: after, ..p }),
        1 if p.count <= v.len() - after => Some(Part {
            after,
            end: after + p.count,
            ..p
        }),
        _ => None,
    }
}

pub fn weights(v: &[u64]) -> Option<Part>
    ensures value { result ≡ weights_part v.now }
    ensures part_within { IfSome result (PartWithin v.now) }
{
    counted(v, HEAD)
}

// The list that begins where another ends.
fn next(v: &[u64], p: Part) -> Option<Part>
    ensures value { result ≡ next_part v.now p }
    ensures part_within { IfSome result (PartWithin v.now) }
{
    changed(v, counted(v, p.end)?)
}

pub fn list(v: &[u64]) -> Option<Part>
    ensures value { result ≡ list_part v.now }
    ensures part_within { IfSome result (PartWithin v.now) }
{
    next(v, weights(v)?)
}

pub fn bytes(v: &[u64]) -> Option<Part>
    ensures value { result ≡ bytes_part v.now }
    ensures part_within { IfSome result (PartWithin v.now) }
{
    next(v, list(v)?)
}

pub fn other(v: &[u64]) -> Option<Part>
    ensures value { result ≡ other_part v.now }
    ensures part_within { IfSome result (PartWithin v.now) }
{
    next(v, bytes(v)?)
}
