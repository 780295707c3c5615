// The edge rules: which element of a line a coordinate reads.
#![tactic(auto)]

ghost use Rattle.std.specs.Prelude.{◌≡◌, ◌*◌, ◌<◌, ◌≤◌};
ghost use Rattle.picture.specs.Sizes.{side_room};
ghost use Rattle.picture.specs.declared.EdgeMode.TheVariants.{Duplicate, Wrap, Mirror, None};
ghost use Rattle.edges.specs.Edges.{modulo, reflected, place, Reads, Difference, farthest, Reach};
ghost use Rattle.edges.specs.Whole.{place_of};

use picture::EdgeMode;

// c - d modulo n, 0 to n - 1. No product wraps.
fn modulo(n: usize, c: usize, d: usize) -> usize
    requires { (0 < n) × (n ≤ 2 * side_room) × (c < farthest) × (d < farthest) }
    ensures { result ≡ modulo n c d }
{
    (c + d * (n - 1)) % n
}

// A line of s elements and its reflection, at m.
fn reflected(s: usize, m: usize) -> usize
    requires { (m < 2 * s) × (s ≤ side_room) }
    ensures { reflected s m ≡ Some result }
{
    if m < s { m } else { 2 * s - 1 - m }
}

// Below, i is c - d where that is 0 or more; where it is less, the difference wraps, and i is above every size.

// What Duplicate reads.
fn nearest(s: usize, c: usize, d: usize, i: usize) -> usize
    requires fact_1 { Reach s c d }
    requires fact_2 { Difference i c d }
    ensures { place Duplicate s c d ≡ Some result }
{
    if i < s {
        return i;
    }
    if c < d { 0 } else { s - 1 }
}

// What Wrap reads within one size of the border: c - d + s below, c - d - s above. Elsewhere this is no element's number.
fn wrap_near(s: usize, c: usize, d: usize) -> usize
    requires { Reach s c d }
    ensures { Reads (place Wrap s c d) s result }
{
    if c < d {
        std::num::wrapping_sub_usize(c + s, d)
    } else {
        std::num::wrapping_sub_usize(c, d + s)
    }
}

// What Wrap reads: at once inside, by one step near the border, and only then by a remainder.
fn wrapped(s: usize, c: usize, d: usize, i: usize) -> usize
    requires fact_1 { Reach s c d }
    requires fact_2 { Difference i c d }
    ensures { place Wrap s c d ≡ Some result }
{
    if i < s {
        return i;
    }
    let near = wrap_near(s, c, d);
    if near < s {
        return near;
    }
    modulo(s, c, d)
}

// What Mirror reads within one size of the border: d - c - 1 below, 2s - 1 - (c - d) above. Elsewhere this is no element's number.
fn mirror_near(s: usize, c: usize, d: usize) -> usize
    requires { Reach s c d }
    ensures { Reads (place Mirror s c d) s result }
{
    if c < d {
        d - c - 1
    } else {
        std::num::wrapping_sub_usize(d + 2 * s - 1, c)
    }
}

// What Mirror reads: at once inside, by one step near the border, and only then by a remainder.
fn mirrored(s: usize, c: usize, d: usize, i: usize) -> usize
    requires fact_1 { Reach s c d }
    requires fact_2 { Difference i c d }
    ensures { place Mirror s c d ≡ Some result }
{
    if i < s {
        return i;
    }
    let near = mirror_near(s, c, d);
    if near < s {
        return near;
    }
    reflected(s, modulo(2 * s, c, d))
}

// What EdgeMode::None reads.
fn held(s: usize, c: usize, d: usize, i: usize) -> Option<usize>
    requires fact_1 { Reach s c d }
    requires fact_2 { Difference i c d }
    ensures { place None s c d ≡ result }
{
    if i < s { Some(i) } else { None }
}

// The element of a line of s elements that the coordinate c - d reads, where there is one. Each rule makes its own test for inside: one before them all is slower.
pub fn extend(c: usize, d: usize, s: usize, mode: EdgeMode) -> Option<usize>
    requires { Reach s c d }
    ensures { result ≡ place mode s c d }
{
    let i = std::num::wrapping_sub_usize(c, d);
    match mode {
        EdgeMode::Duplicate => Some(nearest(s, c, d, i)),
        EdgeMode::Wrap => Some(wrapped(s, c, d, i)),
        EdgeMode::Mirror => Some(mirrored(s, c, d, i)),
        EdgeMode::None => held(s, c, d, i),
    }
}

// The element of a line of s elements that a signed coordinate reads, where there is one. The pair is raised by 2^31, so that neither part is negative.
pub fn extend_signed(c: i32, s: usize, mode: EdgeMode) -> Option<usize>
    requires { (0 < s) × (s ≤ side_room) }
    ensures { result ≡ place_of mode s c }
{
    extend((c as i64 + 2147483648) as usize, 2147483648, s, mode)
}
