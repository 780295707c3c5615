// The testers' image files for C.
ghost use Rattle.std.specs.Prelude.{◌≡◌};
ghost use Rattle.picture.specs.Answer.{answered};
ghost use Rattle.pam.specs.Import.{import_outcome};
ghost use Rattle.pam.specs.Export.{file_left, export_outcome};
ghost use Rattle.face_files.specs.Images.{read_in};

// Reads a PAM file into the front of a picture.
#[unsafe(no_mangle)]
pub extern "C" fn corbelrush_pam_read(
    file: &[u8],
    picture: &mut [u8],
    w: &mut u32,
    h: &mut u32,
    written: &mut u64,
) -> u32
    ensures { answered result (read_in w.new h.new written.new picture.new) ≡ import_outcome file.now picture.old }
{
    *w = 0;
    *h = 0;
    *written = 0;
    match pam::reading::pam_read(file, picture) {
        Err(refusal) => refusal.number(),
        Ok(size) => {
            *w = size.width() as u32;
            *h = size.height() as u32;
            *written = size.bytes() as u64;
            0
        }
    }
}

// Writes a picture as a PAM file to the front of a lent file.
#[unsafe(no_mangle)]
pub extern "C" fn corbelrush_pam_write(
    picture: &[u8],
    w: u32,
    h: u32,
    file: &mut [u8],
    written: &mut u64,
    place: &mut u64,
) -> u32
    ensures { answered result (file_left written.new place.new file.new) ≡ export_outcome picture.now w h file.old }
{
    *written = 0;
    *place = 0;
    match pam::writing::pam_write(picture, w, h, file) {
        Err(unwritten) => {
            *place = unwritten.place.at as u64;
            unwritten.refusal.number()
        }
        Ok(n) => {
            *written = n as u64;
            0
        }
    }
}
