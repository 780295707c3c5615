// A PAM file read into a picture.
ghost use Rattle.std.specs.Prelude.{◌≡◌};
ghost use Rattle.pam.specs.Import.{import_answer, import_outcome};

use pam_convert::bodies::read_body;
use picture::{FullSize, Refusal};

// Reads a file into the front of a lent picture, and answers its size. It gives refusals 15 and 3.
pub fn pam_read(file: &[u8], picture: &mut [u8]) -> Result<FullSize, Refusal>
    ensures { import_answer result picture.new ≡ import_outcome file.now picture.old }
{
    if !pam_format::is_pam(file) {
        return Err(Refusal::NoPam);
    }
    let w = pam_format::width_in(file);
    let h = pam_format::height_in(file);
    if picture::too_short(picture.len(), w, h) {
        return Err(Refusal::TooShort);
    }
    let size = picture::full_size(w, h);
    let n = size.bytes();
    let start = pam_format::header_length(w, h);
    read_body(&mut picture[..n], size, &file[start..]);
    Ok(size)
}
