// Lists of recipes for C. A recipe is a struct of 52 bytes; include/corbelrush.h declares it and the function.
#![tactic(auto)]

ghost use Rattle.std.specs.Prelude.{◌≡◌};
ghost use Rattle.picture.specs.Answer.{answered, lent_copy};
ghost use Rattle.recipes.specs.Chain.{chain_left, chain_outcome};

use recipe_checks::Step;

// Runs a list of recipes on a picture of w by h pixels, as `recipes` does: the index goes through the pointer.
#[unsafe(no_mangle)]
pub extern "C" fn corbelrush_recipes(
    picture: &mut [u8],
    w: u32,
    h: u32,
    scratch: &mut [u8],
    copy: &mut [u8],
    steps: &[Step],
    table: &[f32],
    index: &mut u64,
) -> u32
    ensures { answered result (chain_left index.new (lent_copy picture.new scratch.new copy.new)) ≡ chain_outcome picture.old w h scratch.old copy.old steps.now table.now }
{
    *index = 0;
    match recipes::recipes(picture, w, h, scratch, copy, steps, table) {
        Ok(()) => 0,
        Err(stopped) => {
            *index = stopped.index as u64;
            stopped.refusal.number()
        }
    }
}
