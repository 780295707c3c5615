// Lists of recipes: all are checked before the first runs, and then they run in order on one picture.
#![tactic(auto)]

ghost use Rattle.std.specs.Prelude.{◌≡◌, ◌<◌, length};
ghost use Rattle.picture.specs.Answer.{lent_copy};
ghost use Rattle.recipe_checks.specs.Own.{told, found};
ghost use Rattle.recipes.specs.Chain.{step_at, all_noted, chain_answer, chain_outcome};

use recipe_checks::{Step, Stopped};

// Recipe i of the list.
fn step_at(steps: &[Step], i: usize) -> Step
    requires { i < length steps.now }
    ensures { result ≡ step_at steps.now i }
{
    steps[i]
}

// Checks every recipe of the list, in order. To end at the first that is refused finds what looking at all of them does.
fn check_steps(steps: &[Step], table: &[f32]) -> Result<(), Stopped>
    ensures { told result ≡ all_noted table.now 0 steps.now (found 0 0) }
{
    for i in 0..steps.len() {
        let step = step_at(steps, i);
        recipe_checks::check_at(step, i, table)?;
    }
    Ok(())
}

// Checks every recipe of the list, and then runs them in order on a picture of w by h pixels.
pub fn recipes(
    picture: &mut [u8],
    w: u32,
    h: u32,
    scratch: &mut [u8],
    copy: &mut [u8],
    steps: &[Step],
    table: &[f32],
) -> Result<(), Stopped>
    ensures { chain_answer (told result) (lent_copy picture.new scratch.new copy.new) ≡ chain_outcome picture.old w h scratch.old copy.old steps.now table.now }
{
    recipe_checks::check_frame(picture.len(), w, h, scratch.len(), copy.len())?;
    check_steps(steps, table)?;
    for i in 0..steps.len() {
        let step = step_at(steps, i);
        // All were checked, so that no call is refused.
        let _ = recipe_checks::call(step, picture, w, h, scratch, copy, table);
    }
    let k = picture::full_size(w, h).bytes();
    picture::clear(scratch, k);
    picture::clear(copy, k);
    Ok(())
}
