// The share of one input in an output.
ghost use Rattle.std.specs.Prelude.{◌≡◌, ◌||◌, ◌*◌, ◌<◌};
ghost use Rattle.share_laws.specs.Share.{share_at, axis_share};
ghost use Rattle.share_checks.specs.Checks.{place_outside};
ghost use Rattle.share_checks.specs.Needs.{AxisAsked, RowReady, ShareAsked};
ghost use Rattle.shares.specs.Outcome.{share_answer, share_outcome};

use backwards::LevelSide;
use picture::{EdgeMode, FullSize, Refusal};
use share_checks::axes::fill_axis;
use share_checks::checks::{check_share, place_outside};

// The share of input i in output o along one axis, in two rows of zeros.
fn share_in(
    work: &mut [u32],
    row: &mut [u32],
    side: LevelSide,
    n: u32,
    numerators: &[u32],
    mode: EdgeMode,
    o: usize,
    i: usize,
) -> u32
    requires fact_1 { AxisAsked side.s n numerators.now o }
    requires fact_2 { RowReady side.s work.old }
    requires fact_3 { RowReady side.s row.old }
    requires fact_4 { i < side.s }
    ensures { result ≡ axis_share mode numerators.now n side.s o i }
{
    fill_axis(work, row, side, n, numerators, mode, o);
    row[i]
}

// The same, with the rows.
fn axis_share(
    side: LevelSide,
    n: u32,
    numerators: &[u32],
    mode: EdgeMode,
    o: usize,
    i: usize,
) -> u32
    requires fact_1 { AxisAsked side.s n numerators.now o }
    requires fact_2 { i < side.s }
    ensures { result ≡ axis_share mode numerators.now n side.s o i }
{
    let mut work = [0u32; picture::MAX_SIDE];
    let mut row = [0u32; picture::MAX_SIDE];
    share_in(&mut work, &mut row, side, n, numerators, mode, o, i)
}

// The share of one place in another: that of its column times that of its row.
fn share_of(
    size: FullSize,
    n: u32,
    numerators: &[u32],
    mode: EdgeMode,
    out: usize,
    place: usize,
) -> u64
    requires fact_1 { ShareAsked size.w size.h n numerators.now out }
    requires fact_2 { place < size.w * size.h }
    ensures { result ≡ share_at mode numerators.now n size.w size.h out place }
{
    let w = size.width();
    let x = axis_share(
        backwards::across(size),
        n,
        numerators,
        mode,
        out % w,
        place % w,
    );
    let y = axis_share(
        backwards::down(size),
        n,
        numerators,
        mode,
        out / w,
        place / w,
    );
    x as u64 * y as u64
}

// Whether one of two places lies outside.
fn either_outside(w: u32, h: u32, a: u64, b: u64) -> bool
    ensures { result ≡ (place_outside w h a || place_outside w h b) }
{
    place_outside(w, h, a) || place_outside(w, h, b)
}

// The exact whole-number weight of an input place in an output place, over 2^(10n+32). It gives refusals 1, 4, 9, 21, 22 and 14.
#[tactic(auto, unfolding(picture::specs::Refusal::number_of, picture::specs::Answer::settled, crate::specs::Outcome::share_outcome), using(picture::proofs::Refused::number_some))]
pub fn share(
    w: u32,
    h: u32,
    numerators: &[u32],
    n: u32,
    edge: u32,
    out_place: u64,
    in_place: u64,
) -> Result<u64, Refusal>
    ensures { share_answer result ≡ share_outcome w h numerators.now n edge out_place in_place }
{
    let outside = either_outside(w, h, out_place, in_place);
    check_share(w, h, numerators, n, edge, outside)?;
    Ok(share_of(
        picture::full_size(w, h),
        n,
        numerators,
        picture::edge_mode(edge),
        out_place as usize,
        in_place as usize,
    ))
}
