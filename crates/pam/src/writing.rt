// A picture written as a PAM file.
ghost use Rattle.std.specs.Prelude.{◌≡◌, true};
ghost use Rattle.grading.specs.Premultiplied.{none, finding, checked};
ghost use Rattle.pam.specs.Needs.{Passed};
ghost use Rattle.pam.specs.Export.{refused_at, export_answer, export_outcome};

use counting::none::none_exceeds;
use grading::premultiplied::Place;
use pam_convert::bodies::write_body;
use picture::Refusal;

// Why a picture is not written: the refusal, and with refusal 16 the first place that fails, else 0.
#[derive(Clone, Copy)]
pub struct Unwritten {
    pub refusal: Refusal,
    pub place: Place,
}

impl From<Refusal> for Unwritten {
    ghost from_gives = { λ r u. u ≡ refused_at r 0 };

    fn from(refusal: Refusal) -> Unwritten {
        Unwritten {
            refusal,
            place: Place { at: 0 },
        }
    }
}

// Whether checks 1, 2 and 16 let a picture through. That no pixel fails is told in a fraction of the time that a scan for the first takes.
fn passes(picture: &[u8], w: u32, h: u32) -> bool
    ensures { result ≡ true → Passed picture.now w h none }
{
    if picture::wrong_sides(w, h) {
        return false;
    }
    if picture::wrong_length(picture.len(), w, h) {
        return false;
    }
    let size = picture::full_size(w, h);
    none_exceeds(picture, size.bytes() / 4)
}

// The check: where a pixel fails, its scan says which is the first.
fn quick_check(picture: &[u8], w: u32, h: u32) -> Result<Option<Place>, Refusal>
    ensures { finding result ≡ checked picture.now w h }
{
    if passes(picture, w, h) {
        return Ok(None);
    }
    grading::premultiplied::check(picture, w, h)
}

// The file of a picture that passed the check.
fn write_file(picture: &[u8], w: u32, h: u32, file: &mut [u8]) -> Result<usize, Unwritten>
    requires { Passed picture.now w h none }
    ensures { export_answer result file.new ≡ export_outcome picture.now w h file.old }
{
    let end = pam_format::file_length(w, h);
    if file.len() < end {
        return Err(Unwritten::from(Refusal::TooShort));
    }
    let start = pam_format::write_header(file, w, h);
    write_body(&mut file[start..end], picture::full_size(w, h), picture);
    Ok(end)
}

// Writes a picture to the front of a lent file, and answers how many bytes were written. It gives refusals 1, 2, 16 and 3.
pub fn pam_write(picture: &[u8], w: u32, h: u32, file: &mut [u8]) -> Result<usize, Unwritten>
    ensures { export_answer result file.new ≡ export_outcome picture.now w h file.old }
{
    if let Some(place) = quick_check(picture, w, h)? {
        return Err(Unwritten {
            refusal: Refusal::Exceeds,
            place,
        });
    }
    write_file(picture, w, h, file)
}
