// The rebuilder: from a mended picture and the list of its changes, the old picture.
ghost use Rattle.std.specs.Prelude.{◌≡◌, true, ◌*◌, ◌≤◌, length};
ghost use Rattle.picture.specs.Answer.{answered};
ghost use Rattle.picture.specs.Refusal.{number_of};
ghost use Rattle.rebuilding.specs.Restored.{restored, rising};
ghost use Rattle.rebuilding.specs.Outcome.{wrong_list, rebuild_outcome};

use counting::words;
use picture::Refusal;
use pixels::set_pixel;

// Refusal 18's condition, of a picture of so many pixels.
fn wrong_list(list: &[[u32; 2]], area: usize) -> bool
    ensures { result ≡ wrong_list list.now area }
{
    let mut next = 0;
    for entry in list {
        let place = words::place(entry[0]);
        if place < next || area <= place {
            return true;
        }
        next = place + 1;
    }
    false
}

// Writes each old pixel of the list back into its place.
fn put_back(picture: &mut [u8], list: &[[u32; 2]], area: usize)
    requires fact_1 { 4 * area ≤ length picture.old }
    requires fact_2 { rising 0 area list.now ≡ true }
    ensures { picture.new ≡ restored list.now picture.old }
{
    for entry in list {
        set_pixel(picture, words::place(entry[0]), words::unpack(entry[1]));
    }
}

// Puts the old pixels of a list of changes back into a mended picture. It gives refusals 1, 2 and 18, each before a pixel is put back.
#[tactic(auto, unfolding(picture::specs::Refusal::number_of, picture::specs::Refusal::number, picture::specs::Refusal::first_of, picture::specs::Refusal::first_else, picture::specs::Answer::settled, crate::specs::Outcome::rebuild_outcome), using(picture::proofs::Refused::number_some, picture::proofs::Conditions::right_length, crate::proofs::Rising::right_rises))]
pub fn rebuild(picture: &mut [u8], w: u32, h: u32, list: &[[u32; 2]]) -> Result<(), Refusal>
    ensures { answered (number_of result) picture.new ≡ rebuild_outcome picture.old w h list.now }
{
    picture::check_picture(picture.len(), w, h)?;
    let area = picture.len() / 4;
    picture::refuse_if(wrong_list(list, area), Refusal::WrongList)?;
    put_back(picture, list, area);
    Ok(())
}
