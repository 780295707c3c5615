// The drop shadow: the recipe, apply_drop_shadow, and the entry `shadow`.
#![tactic(auto)]

ghost use Rattle.std.specs.Prelude.{◌≡◌, false, length};
ghost use Rattle.picture.specs.Planes.{cleared};
ghost use Rattle.picture.specs.Sizes.{full_bytes};
ghost use Rattle.picture.specs.Refusal.{number_of, first_of, wrong_sides};
ghost use Rattle.picture.specs.Answer.{answered, lent_copy};
ghost use Rattle.drop_shadow.specs.Shadowed.{colour_of};
ghost use Rattle.drop_shadow.specs.Cast.{cast_bytes, casting_of, shadowed_by};
ghost use Rattle.drop_shadow.specs.Needs.{ShadowReady, ShadowAccepted};
ghost use Rattle.drop_shadow.specs.Outcome.{either_short, not_finite, wrong_colour, shadow_checks, shadow_outcome};

use composite::Colour;
use passes::Form;
use picture::{EdgeMode, FullSize, Refusal, refuse_if};

// How a shadow is cast: its offsets, its blur's strength and its colour.
#[derive(Clone, Copy)]
pub struct Recipe {
    pub dx: f32,
    pub dy: f32,
    pub strength: f32,
    pub red: f32,
    pub green: f32,
    pub blue: f32,
    pub alpha: f32,
}

// A recipe's colour.
impl From<Recipe> for Colour {
    ghost from_gives = { λ recipe colour. colour ≡ colour_of recipe };

    fn from(recipe: Recipe) -> Colour {
        Colour {
            red: recipe.red,
            green: recipe.green,
            blue: recipe.blue,
            alpha: recipe.alpha,
        }
    }
}

// How an accepted call casts its shadow: the picture's size, the blur's decimations and edge mode, the recipe, and whether the original is laid over it.
#[derive(Clone, Copy)]
pub struct Casting {
    pub size: FullSize,
    pub n: u32,
    pub mode: EdgeMode,
    pub recipe: Recipe,
    pub composite: bool,
}

pub fn casting_of(w: u32, h: u32, n: u32, edge: u32, recipe: Recipe, composite: bool) -> Casting
    requires { wrong_sides w h ≡ false }
    ensures { result ≡ casting_of w h n edge recipe composite }
{
    Casting {
        size: picture::full_size(w, h),
        n,
        mode: picture::edge_mode(edge),
        recipe,
        composite,
    }
}

// Shifts a plane of alphas, and blurs it when the strength is above zero.
pub fn cast_plane(plane: &mut [u8], scratch: &mut [u8], weights: &[f32], cast: Casting)
    requires { ShadowReady cast.size scratch.old plane.old weights.now cast.recipe }
    ensures { plane.new ≡ cast_bytes cast.mode weights.now cast.n cast.recipe cast.size.w cast.size.h plane.old }
{
    let size = cast.size;
    let n = cast.n;
    let mode = cast.mode;
    let recipe = cast.recipe;
    shift::offset_plane(plane, size, recipe.dx, recipe.dy);
    gaussian_blur::blur_form(
        plane,
        scratch,
        size,
        Form::PLANE,
        n,
        weights,
        mode,
        recipe.strength,
    );
}

// Takes the picture's alphas, casts them as a shadow, colours it, and lays the picture over it.
pub fn apply_drop_shadow(
    picture: &mut [u8],
    scratch: &mut [u8],
    plane: &mut [u8],
    weights: &[f32],
    cast: Casting,
)
    requires fact_1 { ShadowReady cast.size scratch.old plane.old weights.now cast.recipe }
    requires fact_2 { length picture.old ≡ full_bytes cast.size }
    ensures { picture.new ≡ shadowed_by cast weights.now picture.old }
{
    composite::take_alphas(plane, picture);
    cast_plane(plane, scratch, weights, cast);
    let colour = Colour::from(cast.recipe);
    composite::write_colored_shadow(plane, picture, cast.size, colour, cast.composite);
}

// Refusal 3's condition, of both work buffers.
#[tactic(auto, unfolding(crate::specs::Outcome::either_short))]
pub fn either_short(scratch: usize, copy: usize, w: u32, h: u32) -> bool
    ensures { result ≡ either_short scratch copy w h }
{
    picture::too_short(scratch, w, h) || picture::too_short(copy, w, h)
}

// Refusal 7's condition.
#[tactic(auto, unfolding(crate::specs::Outcome::not_finite))]
pub fn not_finite(recipe: Recipe) -> bool
    ensures { result ≡ not_finite recipe }
{
    shift::wrong_offsets(recipe.dx, recipe.dy) || !binary32::is_finite(recipe.strength)
}

// Refusal 8's condition.
#[tactic(auto, unfolding(crate::specs::Outcome::wrong_colour))]
pub fn wrong_colour(recipe: Recipe) -> bool
    ensures { result ≡ wrong_colour recipe }
{
    let components = [recipe.red, recipe.green, recipe.blue, recipe.alpha];
    binary32::any_outside(&components)
}

// The first of refusals 1 to 9 that fits; of the buffers' lengths.
#[tactic(auto, unfolding(picture::specs::Refusal::number_of, picture::specs::Refusal::number, picture::specs::Refusal::first_of, picture::specs::Refusal::first_else))]
pub fn check_shadow(
    picture: usize,
    w: u32,
    h: u32,
    scratch: usize,
    copy: usize,
    weights: &[f32],
    n: u32,
    edge: u32,
    recipe: Recipe,
) -> Result<(), Refusal>
    ensures { number_of result ≡ first_of (shadow_checks picture w h scratch copy weights.now n edge recipe) }
{
    picture::check_picture(picture, w, h)?;
    refuse_if(either_short(scratch, copy, w, h), Refusal::TooShort)?;
    gaussian_blur::check_kernel(weights)?;
    refuse_if(picture::too_deep(n), Refusal::TooDeep)?;
    refuse_if(not_finite(recipe), Refusal::NotFinite)?;
    refuse_if(wrong_colour(recipe), Refusal::WrongColour)?;
    refuse_if(picture::wrong_edge(edge), Refusal::WrongEdge)
}

// An accepted call: the picture with its shadow, and the work buffers zero where they were used.
fn shadow_accepted(
    picture: &mut [u8],
    scratch: &mut [u8],
    copy: &mut [u8],
    weights: &[f32],
    cast: Casting,
)
    requires { ShadowAccepted cast.size picture.old scratch.old copy.old weights.now cast.recipe }
    ensures { lent_copy picture.new scratch.new copy.new ≡ lent_copy (shadowed_by cast weights.now picture.old) (cleared (full_bytes cast.size) scratch.old) (cleared (full_bytes cast.size) copy.old) }
{
    let size = cast.size;
    let k = size.bytes();
    let area = k / 4;
    apply_drop_shadow(
        picture,
        &mut scratch[..area],
        &mut copy[..area],
        weights,
        cast,
    );
    picture::clear(scratch, k);
    picture::clear(copy, k);
}

// Casts the shadow of a picture of w by h pixels where nothing is refused, and lays the picture over
// it where `composite` says so.
pub fn shadow(
    picture: &mut [u8],
    w: u32,
    h: u32,
    scratch: &mut [u8],
    copy: &mut [u8],
    weights: &[f32],
    n: u32,
    edge: u32,
    recipe: Recipe,
    composite: bool,
) -> Result<(), Refusal>
    ensures { answered (number_of result) (lent_copy picture.new scratch.new copy.new) ≡ shadow_outcome picture.old w h scratch.old copy.old weights.now n edge recipe composite }
{
    check_shadow(
        picture.len(),
        w,
        h,
        scratch.len(),
        copy.len(),
        weights,
        n,
        edge,
        recipe,
    )?;
    let cast = casting_of(w, h, n, edge, recipe, composite);
    shadow_accepted(picture, scratch, copy, weights, cast);
    Ok(())
}
