// Check, view and spread for C: what an entry answers beside its number goes through the pointers.
ghost use Rattle.std.specs.Prelude.{◌≡◌};
ghost use Rattle.picture.specs.Answer.{answered};
ghost use Rattle.pixels.specs.Pixels.{packed};
ghost use Rattle.grading.specs.Premultiplied.{checked};
ghost use Rattle.grading.specs.Sampling.{view_refusal, sampled};
ghost use Rattle.spread.specs.Spread.{reported};
ghost use Rattle.face_grades.specs.Words.{reworded, pointers, finding_in};

// The first pixel of which a channel exceeds alpha: whether there is one, and its place.
#[unsafe(no_mangle)]
pub extern "C" fn corbelrush_check(
    picture: &[u8],
    w: u32,
    h: u32,
    found: &mut u32,
    place: &mut u64,
) -> u32
    ensures { answered result (pointers found.new place.new) ≡ reworded finding_in (checked picture.now w h) }
{
    *found = 0;
    *place = 0;
    match grading::premultiplied::check(picture, w, h) {
        Err(refusal) => refusal.number(),
        Ok(None) => 0,
        Ok(Some(p)) => {
            *found = 1;
            *place = p.at as u64;
            0
        }
    }
}

// The number of a view.
#[unsafe(no_mangle)]
pub extern "C" fn corbelrush_view(picture: &[u8], w: u32, h: u32, edge: u32) -> u32
    ensures { result ≡ view_refusal picture.now w h edge }
{
    picture::number_of(grading::sampling::check_view(picture, w, h, edge))
}

// The pixel at x, y of a view, in one word.
#[unsafe(no_mangle)]
pub extern "C" fn corbelrush_sample(
    picture: &[u8],
    w: u32,
    h: u32,
    edge: u32,
    x: i32,
    y: i32,
) -> u32
    ensures { result ≡ packed (sampled picture.now w h edge x y) }
{
    pixels::pack(grading::sampling::sample_at(picture, w, h, edge, x, y))
}

// The spread of a blur with these weights and n decimations.
#[unsafe(no_mangle)]
pub extern "C" fn corbelrush_spread(weights: &[f32], n: u32, spread: &mut u64) -> u32
    ensures { answered result spread.new ≡ reported weights.now n }
{
    *spread = 0;
    match spread::report(weights, n) {
        Err(refusal) => refusal.number(),
        Ok(s) => {
            *spread = s.units;
            0
        }
    }
}
