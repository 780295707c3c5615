// Which points made a pixel, for C. The list of points is an array of pairs of 64-bit words.
ghost use Rattle.std.specs.Prelude.{◌≡◌};
ghost use Rattle.picture.specs.Answer.{answered};
ghost use Rattle.shares.specs.Outcome.{share_outcome};
ghost use Rattle.share_lists.specs.Listing.{points_left, list_outcome};

// The share of an input place in an output place, as `share` answers it: it goes through the pointer.
#[unsafe(no_mangle)]
pub extern "C" fn corbelrush_share(
    w: u32,
    h: u32,
    numerators: &[u32],
    n: u32,
    edge: u32,
    out_place: u64,
    in_place: u64,
    share: &mut u64,
) -> u32
    ensures { answered result share.new ≡ share_outcome w h numerators.now n edge out_place in_place }
{
    *share = 0;
    match shares::single::share(w, h, numerators, n, edge, out_place, in_place) {
        Err(refusal) => refusal.number(),
        Ok(s) => {
            *share = s;
            0
        }
    }
}

// The points of an output place, as `list` lists them: their number goes through the pointer.
#[unsafe(no_mangle)]
pub extern "C" fn corbelrush_shares(
    w: u32,
    h: u32,
    numerators: &[u32],
    n: u32,
    edge: u32,
    out_place: u64,
    list: &mut [[u64; 2]],
    points: &mut u64,
) -> u32
    ensures { answered result (points_left list.new points.new) ≡ list_outcome w h numerators.now n edge out_place list.old }
{
    *points = 0;
    match share_lists::listing::list(w, h, numerators, n, edge, out_place, list) {
        Err(refusal) => refusal.number(),
        Ok(k) => {
            *points = k as u64;
            0
        }
    }
}
