// The points of an output: the places with a share, listed row by row from the shares of the two axes.
#![tactic(auto)]

ghost use Rattle.std.specs.Prelude.{◌≡◌, List, ℕ, ◌+◌, ◌*◌, length};
ghost use Rattle.picture.specs.Buffers.{line_of};
ghost use Rattle.mending.specs.Changes.{laid_entries};
ghost use Rattle.points.specs.Points.{point, points_below, product_at};
ghost use Rattle.points.specs.Needs.{EndNonzero, RowsAsked, RowAsked};

use back_passes::rows::next_nonzero;

// How many elements are not 0.
pub fn nonzeros(row: &[u32]) -> usize
    ensures { result ≡ length (points_below (line_of row.now) (length row.now)) }
{
    let mut count = 0;
    let mut i = next_nonzero(row, 0);
    // It stays a while: a step goes to the next element that is not 0.
    while i < row.len() {
        count += 1;
        i = next_nonzero(row, i + 1);
    }
    count
}

// How many elements there are up to the last that is not 0.
pub fn end_nonzero(row: &[u32]) -> usize
    ensures { EndNonzero row.now result }
{
    let mut end = 0;
    for (i, x) in row.iter().enumerate() {
        if *x != 0 {
            end = i + 1;
        }
    }
    end
}

// An entry: the place, and the product of its two shares.
fn entry_at(place: usize, x: u32, y: u32) -> [u64; 2]
    ensures { result ≡ point place (x * y) }
{
    [place as u64, x as u64 * y as u64]
}

// Lists the points of row y from entry k on, and answers how many entries there are then.
fn write_row(
    xs: &[u32],
    w: usize,
    ys: &[u32],
    y: usize,
    from: usize,
    list: &mut [[u64; 2]],
    k: usize,
) -> usize
    requires { RowAsked xs.now w ys.now y from (length list.old) k }
    ensures value { result ≡ length (points_below (product_at w xs.now ys.now) (y * w + w)) }
    ensures by_index { (old : List (List ℕ)) → list.old ≡ laid_entries (points_below (product_at w xs.now ys.now) (y * w)) old → list.new ≡ laid_entries (points_below (product_at w xs.now ys.now) (y * w + w)) old }
{
    let v = ys[y];
    let mut k = k;
    let mut x = from;
    // It stays a while: a step goes to the next column that is not 0.
    while x < xs.len() {
        let place = y * w + x;
        list[k] = entry_at(place, xs[x], v);
        k += 1;
        x = next_nonzero(xs, x + 1);
    }
    k
}

// Lists the points of all rows that have some. Beyond xs a row has none.
pub fn write_rows(xs: &[u32], w: usize, ys: &[u32], list: &mut [[u64; 2]])
    requires { RowsAsked xs.now w ys.now (length list.old) }
    ensures { list.new ≡ laid_entries (points_below (product_at w xs.now ys.now) (length ys.now * w)) list.old }
{
    let from = next_nonzero(xs, 0);
    let mut k = 0;
    let mut y = next_nonzero(ys, 0);
    // It stays a while: a step goes to the next row that is not 0.
    while y < ys.len() {
        k = write_row(xs, w, ys, y, from, list, k);
        y = next_nonzero(ys, y + 1);
    }
}
