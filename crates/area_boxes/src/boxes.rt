// The sum of a box, from at most four entries of a table.
ghost use Rattle.std.specs.Prelude.{◌≡◌, ◌+◌, ◌*◌, ◌≤◌, length};
ghost use Rattle.picture.specs.Sizes.{side_room};
ghost use Rattle.area.specs.Area.{boxed};
ghost use Rattle.area_boxes.specs.Outcome.{wrong_box, box_answer, box_outcome};

use area::table::{check_table, corner};
use picture::Refusal;

// The most pixels of a box: so many alphas of 255 sum to 2^32 - 1.
const LARGEST_BOX: usize = 16843009;

// A box of pixels: `wide` columns from x on, `high` rows from y on.
#[derive(Clone, Copy)]
pub struct PixelBox {
    pub x: u32,
    pub y: u32,
    pub wide: u32,
    pub high: u32,
}

// The sum of a box's alphas.
#[derive(Clone, Copy)]
pub struct AreaSum {
    pub alphas: u32,
}

// Refusal 20's condition, of a box. No product and no sum wraps, whatever the numbers are.
#[tactic(auto, unfolding(crate::specs::Outcome::wrong_box, area::specs::Area::largest_box))]
fn wrong_box(w: u32, h: u32, b: PixelBox) -> bool
    ensures { result ≡ wrong_box w h b.x b.y b.wide b.high }
{
    picture::zero_or_above(LARGEST_BOX, b.wide as usize * b.high as usize)
        || (w as usize) < b.x as usize + b.wide as usize
        || (h as usize) < b.y as usize + b.high as usize
}

// The box's columns down to its last row, less what of them lies above it.
#[tactic(auto, unfolding(area::specs::Area::boxed, area::specs::Area::less))]
fn box_of(table: &[u32], w: usize, b: PixelBox) -> u32
    requires fact_1 { b.y + b.high ≤ side_room }
    requires fact_2 { b.x + b.wide ≤ w }
    requires fact_3 { (b.y + b.high) * w ≤ length table.now }
    ensures { result ≡ boxed table.now w b.x b.y b.wide b.high }
{
    let left = b.x as usize;
    let right = left + b.wide as usize;
    let top = b.y as usize;
    let below = top + b.high as usize;
    let down = corner(table, w, right, below).wrapping_sub(corner(table, w, left, below));
    let above = corner(table, w, right, top).wrapping_sub(corner(table, w, left, top));
    down.wrapping_sub(above)
}

// The sum of the alphas of a box. It gives refusals 1, 3 and 20.
#[tactic(auto, unfolding(picture::specs::Refusal::number_of, picture::specs::Refusal::number, picture::specs::Refusal::first_of, picture::specs::Refusal::first_else, picture::specs::Answer::settled, crate::specs::Outcome::box_outcome), using(picture::proofs::Refused::number_some, area::proofs::Conditions::long_enough, picture::proofs::Sizes::full_sized, crate::proofs::Conditions::box_inside, area::proofs::Entries::rows_le))]
pub fn box_sum(table: &[u32], w: u32, h: u32, b: PixelBox) -> Result<AreaSum, Refusal>
    ensures { box_answer result ≡ box_outcome table.now w h b.x b.y b.wide b.high }
{
    check_table(table.len(), w, h)?;
    picture::refuse_if(wrong_box(w, h, b), Refusal::WrongBox)?;
    Ok(AreaSum {
        alphas: box_of(table, w as usize, b),
    })
}
