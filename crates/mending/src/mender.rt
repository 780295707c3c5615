// The mender: each channel above its alpha is lowered to it, and each pixel changed is listed.
ghost use Rattle.std.specs.Prelude.{◌≡◌, cond, ◌+◌, ◌*◌, ◌≤◌, ◌<◌, length, set};
ghost use Rattle.picture.specs.Answer.{settled};
ghost use Rattle.picture.specs.Refusal.{first_of};
ghost use Rattle.picture.specs.Sizes.{Pictured};
ghost use Rattle.pixels.specs.Pixels.{pixel_at, with_pixel};
ghost use Rattle.pixels.specs.Channels.{exceeds_at};
ghost use Rattle.counting.specs.Counts.{how_many};
ghost use Rattle.mending.specs.Changes.{mended, lowered, change, changes_below, laid_entries};
ghost use Rattle.mending.specs.Outcome.{mend_left, mend_answer, room_checks, mend_done, mend_outcome};

use counting::counter::count_exceeding;
use picture::{FullSize, Pixel, Refusal};
use pixels::{exceeds, pixel_at, set_pixel};

// The pixel with each channel above alpha lowered to it.
fn lower(p: Pixel) -> Pixel
    ensures { result ≡ lowered p }
{
    Pixel {
        r: p.r.min(p.a),
        g: p.g.min(p.a),
        b: p.b.min(p.a),
        a: p.a,
    }
}

// Mends pixel i, and lists it as entry k where it fails; answers how many entries there are then.
fn mend_one(picture: &mut [u8], list: &mut [[u32; 2]], i: usize, k: usize) -> usize
    requires fact_1 { 4 * i + 4 ≤ length picture.old }
    requires fact_2 { i < 4294967296 }
    requires fact_3 { k + cond (exceeds_at picture.old i) 1 0 ≤ length list.old }
    ensures value { result ≡ k + cond (exceeds_at picture.old i) 1 0 }
    ensures picture_after { picture.new ≡ with_pixel picture.old i (lowered (pixel_at picture.old i)) }
    ensures list_after { list.new ≡ cond (exceeds_at picture.old i) (set list.old k (change i (pixel_at picture.old i))) list.old }
{
    let p = pixel_at(picture, i);
    if exceeds(p) {
        list[k] = [i as u32, pixels::pack(p)];
        set_pixel(picture, i, lower(p));
        return k + 1;
    }
    k
}

// Mends every pixel: the list has room for each that fails.
fn mend_pixels(picture: &mut [u8], size: FullSize, list: &mut [[u32; 2]])
    requires fact_1 { Pictured size.w size.h picture.old }
    requires fact_2 { how_many (exceeds_at picture.old) (size.w * size.h) ≤ length list.old }
    ensures picture_after { picture.new ≡ mended size.w size.h picture.old }
    ensures list_after { list.new ≡ laid_entries (changes_below picture.old (size.w * size.h)) list.old }
{
    let n = size.bytes() / 4;
    let mut k = 0;
    for i in 0..n {
        k = mend_one(picture, list, i, k);
    }
}

// Mends a whole picture. One that passes is mended as it stands, after the one pass that counts.
#[tactic(auto, unfolding(picture::specs::Refusal::number, picture::specs::Refusal::first_of, picture::specs::Refusal::first_else, picture::specs::Answer::settled), using(crate::proofs::Passing::nothing_counted, crate::proofs::Passing::a_quarter))]
fn mend_whole(picture: &mut [u8], size: FullSize, list: &mut [[u32; 2]]) -> Result<usize, Refusal>
    requires { Pictured size.w size.h picture.old }
    ensures { mend_answer result picture.new list.new ≡ settled (first_of (room_checks picture.old size.w size.h (length list.old))) (mend_left picture.old list.old 0) (mend_done picture.old size.w size.h list.old) }
{
    let count = count_exceeding(picture, size.bytes() / 4);
    picture::refuse_if(list.len() < count, Refusal::ListFull)?;
    if count == 0 {
        return Ok(0);
    }
    mend_pixels(picture, size, list);
    Ok(count)
}

// Lowers each r, g or b above its alpha to that alpha, lists the place and the old pixel of each pixel changed, and answers how many those are. It gives refusals 1, 2 and 17.
#[tactic(auto, unfolding(picture::specs::Refusal::number_of, picture::specs::Refusal::first_of, picture::specs::Refusal::first_else, picture::specs::Answer::settled, crate::specs::Outcome::mend_outcome), using(picture::proofs::Refused::number_some, picture::proofs::Sizes::whole))]
pub fn mend(picture: &mut [u8], w: u32, h: u32, list: &mut [[u32; 2]]) -> Result<usize, Refusal>
    ensures { mend_answer result picture.new list.new ≡ mend_outcome picture.old w h list.old }
{
    picture::check_picture(picture.len(), w, h)?;
    mend_whole(picture, picture::full_size(w, h), list)
}
