// The premultiplied check: the first pixel of which a channel exceeds alpha.
ghost use Rattle.std.specs.Prelude.{◌≡◌};
ghost use Rattle.picture.specs.Sizes.{Pictured};
ghost use Rattle.grading.specs.Premultiplied.{found, scanned, checked, finding};

use picture::{FullSize, Refusal};
use pixels::{exceeds, pixel_at};

// A place in a picture: the number y * w + x.
#[derive(Clone, Copy)]
pub struct Place {
    pub at: usize,
}

// The first pixel that exceeds, rows downward, each left to right.
pub fn scan(picture: &[u8], size: FullSize) -> Option<Place>
    requires { Pictured size.w size.h picture.now }
    ensures { found result ≡ scanned picture.now size.w size.h }
{
    let w = size.width();
    let h = size.height();
    for y in 0..h {
        for x in 0..w {
            if exceeds(pixel_at(picture, y * w + x)) {
                return Some(Place { at: y * w + x });
            }
        }
    }
    None
}

// The first pixel of which a channel exceeds alpha, or that there is none. It gives refusals 1 and 2.
#[tactic(auto, unfolding(picture::specs::Refusal::number_of, picture::specs::Refusal::first_of, picture::specs::Refusal::first_else, picture::specs::Answer::settled, crate::specs::Premultiplied::checked), using(picture::proofs::Refused::number_some, picture::proofs::Sizes::whole))]
pub fn check(picture: &[u8], w: u32, h: u32) -> Result<Option<Place>, Refusal>
    ensures { finding result ≡ checked picture.now w h }
{
    picture::check_picture(picture.len(), w, h)?;
    Ok(scan(picture, picture::full_size(w, h)))
}
