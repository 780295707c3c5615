// The table of a picture: at each pixel the sum of all alphas above and to the left, itself included, modulo 2^32.
ghost use Rattle.std.specs.Prelude.{◌≡◌, ℕ, ◌+◌, ◌*◌, ◌<◌, ◌≤◌, length};
ghost use Rattle.picture.specs.Answer.{answered};
ghost use Rattle.picture.specs.Planes.{laid};
ghost use Rattle.picture.specs.Refusal.{number_of};
ghost use Rattle.picture.specs.Sizes.{side_room, Pictured};
ghost use Rattle.picture.specs.Spans.{Run};
ghost use Rattle.area.specs.Area.{alpha_plane, entry, corner, built};
ghost use Rattle.area.specs.Outcome.{build_outcome};

use crate::table::{corner, short_table};
use picture::{FullSize, Refusal};

// Row y of the table: the row's sum so far, and what stands above.
fn build_row(picture: &[u8], table: &mut [u32], w: usize, y: usize)
    requires fact_1 { y + 1 ≤ side_room }
    requires fact_2 { 4 * ((y + 1) * w) ≤ length picture.now }
    requires fact_3 { (y + 1) * w ≤ length table.old }
    requires fact_4 { ((x : ℕ) → x < w → corner table.old w (x + 1) y ≡ entry (alpha_plane picture.now w) (x + 1) y) }
    ensures { Run 0 table.old table.new (y * w) w (λ x. entry (alpha_plane picture.now w) (x + 1) (y + 1)) }
{
    let mut sum: u32 = 0;
    for x in 0..w {
        let at = y * w + x;
        sum = sum.wrapping_add(u32::from(picture[4 * at + 3]));
        let above = corner(table, w, x + 1, y);
        table[at] = above.wrapping_add(sum);
    }
}

// Every row, from the top.
fn build_rows(picture: &[u8], size: FullSize, table: &mut [u32])
    requires fact_1 { Pictured size.w size.h picture.now }
    requires fact_2 { size.w * size.h ≤ length table.old }
    ensures { table.new ≡ laid (built size.w size.h (alpha_plane picture.now size.w)) table.old }
{
    let w = size.width();
    let h = size.height();
    for y in 0..h {
        build_row(picture, table, w, y);
    }
}

// Builds the table of a picture of w by h pixels in the first entries of a lent one. It gives refusals 1, 2 and 3.
#[tactic(auto, unfolding(picture::specs::Refusal::number_of, picture::specs::Refusal::number, picture::specs::Refusal::first_of, picture::specs::Refusal::first_else, picture::specs::Answer::settled, crate::specs::Outcome::build_outcome), using(picture::proofs::Refused::number_some, crate::proofs::Conditions::long_enough, picture::proofs::Sizes::whole))]
pub fn build(picture: &[u8], w: u32, h: u32, table: &mut [u32]) -> Result<(), Refusal>
    ensures { answered (number_of result) table.new ≡ build_outcome picture.now w h table.old }
{
    picture::check_picture(picture.len(), w, h)?;
    picture::refuse_if(short_table(table.len(), w, h), Refusal::TooShort)?;
    build_rows(picture, picture::full_size(w, h), table);
    Ok(())
}
