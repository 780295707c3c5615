// A table's length, the checks of a call on one, and its number at a corner.
ghost use Rattle.std.specs.Prelude.{◌≡◌, ◌*◌, ◌≤◌, length};
ghost use Rattle.picture.specs.Refusal.{first_of, number_of};
ghost use Rattle.area.specs.Area.{corner};
ghost use Rattle.area.specs.Outcome.{short_table, table_checks};

use picture::Refusal;

// Refusal 3's condition, of a table. No product wraps, whatever the sides are.
pub fn short_table(entries: usize, w: u32, h: u32) -> bool
    ensures { result ≡ short_table entries w h }
{
    entries < w as usize * h as usize
}

// Checks 1 and 3, which a call that is lent a table alone begins with.
#[tactic(auto, unfolding(picture::specs::Refusal::number_of, picture::specs::Refusal::number, picture::specs::Refusal::first_of, picture::specs::Refusal::first_else))]
pub fn check_table(entries: usize, w: u32, h: u32) -> Result<(), Refusal>
    ensures { number_of result ≡ first_of (table_checks entries w h) }
{
    picture::refuse_if(picture::wrong_sides(w, h), Refusal::WrongSides)?;
    picture::refuse_if(short_table(entries, w, h), Refusal::TooShort)
}

// The number of all left of x and above y: 0 at the border.
pub fn corner(table: &[u32], w: usize, x: usize, y: usize) -> u32
    requires fact_1 { x ≤ w }
    requires fact_2 { y * w ≤ length table.now }
    ensures { result ≡ corner table.now w x y }
{
    if x == 0 || y == 0 {
        return 0;
    }
    table[(y - 1) * w + (x - 1)]
}
