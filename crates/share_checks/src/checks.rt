// The checks that both entries share.
ghost use Rattle.std.specs.Prelude.{◌≡◌};
ghost use Rattle.picture.specs.Refusal.{first_of, number_of};
ghost use Rattle.share_checks.specs.Checks.{place_outside, share_checks, too_deep_to_share};

use picture::Refusal;

// The most decimations that shares are worked out for.
const MAX_SHARE_DEPTH: u32 = 3;

// Refusal 21's condition.
fn too_deep_to_share(n: u32) -> bool
    ensures { result ≡ too_deep_to_share n }
{
    MAX_SHARE_DEPTH < n
}

// Refusal 22's condition, of one place. No product wraps, whatever the sides are.
pub fn place_outside(w: u32, h: u32, place: u64) -> bool
    ensures { result ≡ place_outside w h place }
{
    w as u64 * h as u64 <= place
}

// The first of refusals 1, 4, 9, 21, 22 and 14 that fits; of whether a place lies outside, which one entry asks of one place and the other of two.
#[tactic(auto, unfolding(picture::specs::Refusal::number_of, picture::specs::Refusal::number, picture::specs::Refusal::first_of, picture::specs::Refusal::first_else))]
pub fn check_share(
    w: u32,
    h: u32,
    numerators: &[u32],
    n: u32,
    edge: u32,
    outside: bool,
) -> Result<(), Refusal>
    ensures { number_of result ≡ first_of (share_checks w h numerators.now n edge outside) }
{
    picture::refuse_if(picture::wrong_sides(w, h), Refusal::WrongSides)?;
    picture::refuse_if(picture::wrong_taps(numerators.len()), Refusal::WrongTaps)?;
    picture::refuse_if(picture::wrong_edge(edge), Refusal::WrongEdge)?;
    picture::refuse_if(too_deep_to_share(n), Refusal::TooDeepToShare)?;
    picture::refuse_if(outside, Refusal::Outside)?;
    picture::refuse_if(grid_sums::is_heavy(numerators), Refusal::WrongSum)
}
