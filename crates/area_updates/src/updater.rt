// One pixel's change carried into a table: into its entries at or below and right of the pixel.
ghost use Rattle.std.specs.Prelude.{◌≡◌, ◌+◌, ◌*◌, ◌%◌, ◌<◌, ◌≤◌, length, slice_index};
ghost use Rattle.picture.specs.Answer.{answered};
ghost use Rattle.picture.specs.Build.{build};
ghost use Rattle.picture.specs.Planes.{laid};
ghost use Rattle.picture.specs.Refusal.{number_of};
ghost use Rattle.picture.specs.Sizes.{FullSized};
ghost use Rattle.picture.specs.Spans.{Span};
ghost use Rattle.area.specs.Area.{top, gained};
ghost use Rattle.area_updates.specs.Outcome.{wrong_place, update_outcome};

use area::table::check_table;
use picture::{FullSize, Refusal};

// Refusal 20's condition, of a place.
fn wrong_place(w: u32, h: u32, place: u64) -> bool
    ensures { result ≡ wrong_place w h place }
{
    w as u64 * h as u64 <= place
}

// Adds the gain to the entries from `start` up to `end`, modulo 2^32.
fn add_run(table: &mut [u32], start: usize, end: usize, gain: u32)
    requires fact_1 { start ≤ end }
    requires fact_2 { end ≤ length table.old }
    ensures { Span 0 table.old table.new 0 start end (λ k. (slice_index table.old k + gain) % top) }
{
    for k in start..end {
        table[k] = table[k].wrapping_add(gain);
    }
}

// Adds the gain to every entry at or below and right of x, y.
fn add_rows(table: &mut [u32], size: FullSize, x: usize, y: usize, gain: u32)
    requires fact_1 { FullSized size }
    requires fact_2 { size.w * size.h ≤ length table.old }
    requires fact_3 { x < size.w }
    requires fact_4 { y < size.h }
    ensures { table.new ≡ laid (build (size.h * size.w) (gained table.old size.w x y gain)) table.old }
{
    let w = size.width();
    let h = size.height();
    for j in y..h {
        let row = j * w;
        add_run(table, row + x, row + w, gain);
    }
}

// Carries the change of the alpha at a place from old to new into the table. It gives refusals 1, 3 and 20.
#[tactic(auto, unfolding(picture::specs::Refusal::number_of, picture::specs::Refusal::number, picture::specs::Refusal::first_of, picture::specs::Refusal::first_else, picture::specs::Answer::settled, crate::specs::Outcome::update_outcome, area::specs::Area::updated, area::specs::Area::less), using(picture::proofs::Refused::number_some, area::proofs::Conditions::long_enough, picture::proofs::Sizes::full_sized, crate::proofs::Conditions::place_inside))]
pub fn update(
    table: &mut [u32],
    w: u32,
    h: u32,
    place: u64,
    old: u8,
    new: u8,
) -> Result<(), Refusal>
    ensures { answered (number_of result) table.new ≡ update_outcome table.old w h place old new }
{
    check_table(table.len(), w, h)?;
    picture::refuse_if(wrong_place(w, h, place), Refusal::WrongBox)?;
    let x = (place % w as u64) as usize;
    let y = (place / w as u64) as usize;
    let gain = u32::from(new).wrapping_sub(u32::from(old));
    add_rows(table, picture::full_size(w, h), x, y, gain);
    Ok(())
}
