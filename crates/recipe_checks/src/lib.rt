// One recipe of a list: its own checks, and the single call that it names.
#![tactic(auto)]

ghost use Rattle.std.specs.Prelude.{◌≡◌, cond, ◌<◌, eqb, length};
ghost use Rattle.picture.specs.Refusal.{number_of, first_of};
ghost use Rattle.picture.specs.Answer.{answered, lent_copy};
ghost use Rattle.recipe_checks.specs.Own.{kernels, kernel_of, kernel_own, unknown, recipe_of, own_number, shift_own, blur_own, shadow_own, frame_checks, stopped_at, found, told};
ghost use Rattle.recipe_checks.specs.Single.{kernel_call, single_call};

use drop_shadow::Recipe;
use picture::{Refusal, refuse_if};

// The operations of a recipe, by the numbers that C lends in a `Step`: its layout and its numbers are those of include/corbelrush.h.
pub const BLUR: u32 = 0;

pub const SHIFT: u32 = 1;

pub const SHADOW: u32 = 2;

// One recipe: an operation and its numbers. What the operation does not name is not read.
#[repr(C)]
#[derive(Clone, Copy)]
pub struct Step {
    pub operation: u32,
    pub kernel: u32,
    pub taps: u32,
    pub n: u32,
    pub edge: u32,
    pub composite: u32,
    pub dx: f32,
    pub dy: f32,
    pub strength: f32,
    pub red: f32,
    pub green: f32,
    pub blue: f32,
    pub alpha: f32,
}

// Why a list of recipes is refused: the refusal, and the index of the recipe whose own it is, else 0.
#[derive(Clone, Copy)]
pub struct Stopped {
    pub refusal: Refusal,
    pub index: usize,
}

impl From<Refusal> for Stopped {
    ghost from_gives = { λ r s. s ≡ stopped_at r 0 };

    fn from(refusal: Refusal) -> Stopped {
        Stopped { refusal, index: 0 }
    }
}

// How a recipe casts a shadow.
fn recipe_of(step: Step) -> Recipe
    ensures { result ≡ recipe_of step }
{
    Recipe {
        dx: step.dx,
        dy: step.dy,
        strength: step.strength,
        red: step.red,
        green: step.green,
        blue: step.blue,
        alpha: step.alpha,
    }
}

// Refusal 19's condition, of the table's length.
fn is_unknown(step: Step, weights: usize) -> bool
    ensures { result ≡ unknown weights step }
{
    if SHADOW < step.operation {
        return true;
    }
    if step.operation == SHIFT {
        return false;
    }
    weights / picture::MAX_TAPS <= step.kernel as usize
}

// Check 7 of a shift.
#[tactic(auto, unfolding(picture::specs::Refusal::number_of, picture::specs::Refusal::number, picture::specs::Refusal::first_of, picture::specs::Refusal::first_else))]
fn check_shift(step: Step) -> Result<(), Refusal>
    ensures { number_of result ≡ first_of (shift_own step) }
{
    refuse_if(shift::wrong_offsets(step.dx, step.dy), Refusal::NotFinite)
}

// Checks 7 and 9 of a blur.
#[tactic(auto, unfolding(picture::specs::Refusal::number_of, picture::specs::Refusal::number, picture::specs::Refusal::first_of, picture::specs::Refusal::first_else))]
fn check_blur(step: Step) -> Result<(), Refusal>
    ensures { number_of result ≡ first_of (blur_own step) }
{
    refuse_if(!binary32::is_finite(step.strength), Refusal::NotFinite)?;
    refuse_if(picture::wrong_edge(step.edge), Refusal::WrongEdge)
}

// Checks 7, 8 and 9 of a shadow.
#[tactic(auto, unfolding(picture::specs::Refusal::number_of, picture::specs::Refusal::number, picture::specs::Refusal::first_of, picture::specs::Refusal::first_else))]
fn check_shadow(step: Step) -> Result<(), Refusal>
    ensures { number_of result ≡ first_of (shadow_own step) }
{
    let recipe = recipe_of(step);
    refuse_if(drop_shadow::not_finite(recipe), Refusal::NotFinite)?;
    refuse_if(drop_shadow::wrong_colour(recipe), Refusal::WrongColour)?;
    refuse_if(picture::wrong_edge(step.edge), Refusal::WrongEdge)
}

// Kernel k of the table, its first taps weights.
fn kernel_part(table: &[f32], k: u32, taps: u32) -> &[f32]
    requires { k < kernels (length table.now) }
    ensures { result.now ≡ kernel_of table.now k taps }
{
    let a = picture::MAX_TAPS * k as usize;
    let e = a + (taps as usize).min(picture::MAX_TAPS);
    &table[a..e]
}

// Checks 4, 5 and 6, of a recipe's kernel.
#[tactic(auto, unfolding(picture::specs::Refusal::number_of, picture::specs::Refusal::number, picture::specs::Refusal::first_of, picture::specs::Refusal::first_else))]
fn check_kernel(step: Step, table: &[f32]) -> Result<(), Refusal>
    requires { step.kernel < kernels (length table.now) }
    ensures { number_of result ≡ first_of (kernel_own table.now step) }
{
    refuse_if(picture::wrong_taps(step.taps as usize), Refusal::WrongTaps)?;
    let weights = kernel_part(table, step.kernel, step.taps);
    refuse_if(binary32::any_outside(weights), Refusal::WrongWeight)?;
    refuse_if(picture::too_deep(step.n), Refusal::TooDeep)
}

// The first of a recipe's own refusals that fits.
pub fn check_own(step: Step, table: &[f32]) -> Result<(), Refusal>
    ensures { number_of result ≡ own_number table.now step }
{
    if is_unknown(step, table.len()) {
        return Err(Refusal::WrongRecipe);
    }
    if step.operation == SHIFT {
        return check_shift(step);
    }
    check_kernel(step, table)?;
    if step.operation == BLUR {
        return check_blur(step);
    }
    check_shadow(step)
}

// The same of recipe i of a list.
pub fn check_at(step: Step, i: usize, table: &[f32]) -> Result<(), Stopped>
    ensures { told result ≡ cond (eqb (own_number table.now step) 0) (found 0 0) (found (own_number table.now step) i) }
{
    match check_own(step, table) {
        Ok(()) => Ok(()),
        Err(refusal) => Err(Stopped { refusal, index: i }),
    }
}

// Checks 1 to 3, of the lent buffers' lengths.
#[tactic(auto, unfolding(picture::specs::Refusal::number_of, picture::specs::Refusal::number, picture::specs::Refusal::first_of, picture::specs::Refusal::first_else))]
pub fn check_frame(
    picture: usize,
    w: u32,
    h: u32,
    scratch: usize,
    copy: usize,
) -> Result<(), Refusal>
    ensures { number_of result ≡ first_of (frame_checks picture w h scratch copy) }
{
    picture::check_picture(picture, w, h)?;
    refuse_if(
        drop_shadow::either_short(scratch, copy, w, h),
        Refusal::TooShort,
    )
}

// The single call that a recipe with a kernel names: a blur or a shadow.
fn call_with_kernel(
    step: Step,
    picture: &mut [u8],
    w: u32,
    h: u32,
    scratch: &mut [u8],
    copy: &mut [u8],
    weights: &[f32],
) -> Result<(), Refusal>
    ensures { answered (number_of result) (lent_copy picture.new scratch.new copy.new) ≡ kernel_call weights.now w h step (lent_copy picture.old scratch.old copy.old) }
{
    if step.operation == BLUR {
        return gaussian_blur::blur(
            picture,
            w,
            h,
            scratch,
            weights,
            step.n,
            step.strength,
            step.edge,
        );
    }
    let recipe = recipe_of(step);
    drop_shadow::shadow(
        picture,
        w,
        h,
        scratch,
        copy,
        weights,
        step.n,
        step.edge,
        recipe,
        step.composite != 0,
    )
}

// The single call that a recipe names.
pub fn call(
    step: Step,
    picture: &mut [u8],
    w: u32,
    h: u32,
    scratch: &mut [u8],
    copy: &mut [u8],
    table: &[f32],
) -> Result<(), Refusal>
    ensures { answered (number_of result) (lent_copy picture.new scratch.new copy.new) ≡ single_call table.now w h step (lent_copy picture.old scratch.old copy.old) }
{
    if is_unknown(step, table.len()) {
        return Err(Refusal::WrongRecipe);
    }
    if step.operation == SHIFT {
        return shift::shift(picture, w, h, step.dx, step.dy);
    }
    let weights = kernel_part(table, step.kernel, step.taps);
    call_with_kernel(step, picture, w, h, scratch, copy, weights)
}
