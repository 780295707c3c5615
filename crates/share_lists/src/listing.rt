// The list of all inputs that have a share in an output.
ghost use Rattle.std.specs.Prelude.{◌≡◌, ◌*◌, ◌≤◌, ◌<◌, length};
ghost use Rattle.picture.specs.Answer.{settled};
ghost use Rattle.picture.specs.Refusal.{first_of};
ghost use Rattle.picture.specs.Sizes.{side_room};
ghost use Rattle.share_laws.specs.Share.{share_at};
ghost use Rattle.points.specs.Points.{points_below, product_at};
ghost use Rattle.share_checks.specs.Needs.{RowReady, ShareAsked};
ghost use Rattle.share_lists.specs.Listing.{points_left, list_answer, full_checks, list_done, list_outcome};

use picture::{EdgeMode, FullSize, Refusal};
use share_checks::axes::fill_axis;
use share_checks::checks::{check_share, place_outside};

// The points of two axes, where the list has room for them.
fn list_axes(xs: &[u32], ys: &[u32], list: &mut [[u64; 2]]) -> Result<usize, Refusal>
    requires fact_1 { 0 < length xs.now }
    requires fact_2 { length xs.now ≤ side_room }
    requires fact_3 { length ys.now ≤ side_room }
    ensures { list_answer result list.new ≡ settled (first_of (full_checks (length list.old) (points_below (product_at (length xs.now) xs.now ys.now) (length ys.now * length xs.now)))) (points_left list.old 0) (list_done (points_below (product_at (length xs.now) xs.now ys.now) (length ys.now * length xs.now)) list.old) }
{
    let count = points::nonzeros(xs) * points::nonzeros(ys);
    if list.len() < count {
        return Err(Refusal::ListFull);
    }
    let end = points::end_nonzero(xs);
    points::write_rows(&xs[..end], xs.len(), ys, list);
    Ok(count)
}

// The points of one output, in three rows of zeros.
fn list_in(
    work: &mut [u32],
    xs: &mut [u32],
    ys: &mut [u32],
    size: FullSize,
    n: u32,
    numerators: &[u32],
    mode: EdgeMode,
    out: usize,
    list: &mut [[u64; 2]],
) -> Result<usize, Refusal>
    requires fact_1 { ShareAsked size.w size.h n numerators.now out }
    requires fact_2 { RowReady size.w work.old × RowReady size.h work.old }
    requires fact_3 { RowReady size.w xs.old }
    requires fact_4 { RowReady size.h ys.old }
    ensures { list_answer result list.new ≡ settled (first_of (full_checks (length list.old) (points_below (share_at mode numerators.now n size.w size.h out) (size.w * size.h)))) (points_left list.old 0) (list_done (points_below (share_at mode numerators.now n size.w size.h out) (size.w * size.h)) list.old) }
{
    let w = size.width();
    let h = size.height();
    fill_axis(
        work,
        xs,
        backwards::across(size),
        n,
        numerators,
        mode,
        out % w,
    );
    fill_axis(
        work,
        ys,
        backwards::down(size),
        n,
        numerators,
        mode,
        out / w,
    );
    list_axes(&xs[..w], &ys[..h], list)
}

// The same, with the rows.
fn list_points(
    size: FullSize,
    n: u32,
    numerators: &[u32],
    mode: EdgeMode,
    out: usize,
    list: &mut [[u64; 2]],
) -> Result<usize, Refusal>
    requires { ShareAsked size.w size.h n numerators.now out }
    ensures { list_answer result list.new ≡ settled (first_of (full_checks (length list.old) (points_below (share_at mode numerators.now n size.w size.h out) (size.w * size.h)))) (points_left list.old 0) (list_done (points_below (share_at mode numerators.now n size.w size.h out) (size.w * size.h)) list.old) }
{
    let mut work = [0u32; picture::MAX_SIDE];
    let mut xs = [0u32; picture::MAX_SIDE];
    let mut ys = [0u32; picture::MAX_SIDE];
    list_in(
        &mut work, &mut xs, &mut ys, size, n, numerators, mode, out, list,
    )
}

// Lists the nonzero shares of one output, in scan order, in a lent list, and answers how many points those are. It gives refusals 1, 4, 9, 21, 22, 14 and 17.
pub fn list(
    w: u32,
    h: u32,
    numerators: &[u32],
    n: u32,
    edge: u32,
    out_place: u64,
    list: &mut [[u64; 2]],
) -> Result<usize, Refusal>
    ensures { list_answer result list.new ≡ list_outcome w h numerators.now n edge out_place list.old }
{
    let outside = place_outside(w, h, out_place);
    check_share(w, h, numerators, n, edge, outside)?;
    list_points(
        picture::full_size(w, h),
        n,
        numerators,
        picture::edge_mode(edge),
        out_place as usize,
        list,
    )
}
