// The plate file for C.
ghost use Rattle.std.specs.Prelude.{◌≡◌};
ghost use Rattle.picture.specs.Answer.{answered, lent};
ghost use Rattle.plate.specs.Lookup.{looked_up, beside, labelled_up};
ghost use Rattle.plate_empty.specs.Outcome.{grown, start_outcome};
ghost use Rattle.plate_write.specs.Outcome.{add_outcome};
ghost use Rattle.body_blur.specs.Blur.{plate_blur};
ghost use Rattle.job.specs.Job.{job_outcome};
ghost use Rattle.face_files.specs.Words.{picture_in};

// The sides of the picture of that index, and where it lies.
#[unsafe(no_mangle)]
pub extern "C" fn corbelrush_plate_picture(
    plate: &[u8],
    index: u32,
    w: &mut u32,
    h: &mut u32,
    offset: &mut u64,
    length: &mut u64,
) -> u32
    ensures { answered result (picture_in w.new h.new offset.new length.new) ≡ looked_up plate.now index }
{
    *w = 0;
    *h = 0;
    *offset = 0;
    *length = 0;
    match plate::find_picture(plate, index) {
        Err(refusal) => refusal.number(),
        Ok(found) => {
            *w = found.size.width() as u32;
            *h = found.size.height() as u32;
            *offset = found.stretch.offset as u64;
            *length = found.stretch.length as u64;
            0
        }
    }
}

// The unit and the sheet of the picture of that index, as `find_label` does.
#[unsafe(no_mangle)]
pub extern "C" fn corbelrush_plate_label(
    plate: &[u8],
    index: u32,
    unit: &mut u32,
    sheet: &mut u16,
) -> u32
    ensures { answered result (beside unit.new sheet.new) ≡ labelled_up plate.now index }
{
    *unit = 0;
    *sheet = 0;
    match plate::find_label(plate, index) {
        Err(refusal) => refusal.number(),
        Ok(label) => {
            *unit = label.unit.number();
            *sheet = label.sheet;
            0
        }
    }
}

// Blurs every picture of a plate where it lies, as `plate_job` does.
#[unsafe(no_mangle)]
pub extern "C" fn corbelrush_plate_job(plate: &mut [u8], scratch: &mut [u8]) -> u32
    ensures { answered result (lent plate.new scratch.new) ≡ job_outcome plate_blur plate.old scratch.old }
{
    picture::number_of(job::plate_job(plate, scratch))
}

// Starts a plate of no pictures, of that version, as `plate_start` does; its length goes through the pointer.
#[unsafe(no_mangle)]
pub extern "C" fn corbelrush_plate_start(buffer: &mut [u8], version: u32, used: &mut u64) -> u32
    ensures { answered result (grown buffer.new used.new) ≡ start_outcome buffer.old version }
{
    *used = 0;
    match plate_empty::plate_start(buffer, version) {
        Err(refusal) => refusal.number(),
        Ok(n) => {
            *used = n as u64;
            0
        }
    }
}

// Adds a picture to the plate that the first `used` bytes are, as `plate_add` does; the new length goes through the pointer.
#[unsafe(no_mangle)]
pub extern "C" fn corbelrush_plate_add(
    buffer: &mut [u8],
    used: u64,
    picture: &[u8],
    w: u32,
    h: u32,
    unit: u32,
    sheet: u16,
    after: &mut u64,
) -> u32
    ensures { answered result (grown buffer.new after.new) ≡ add_outcome buffer.old used picture.now w h (beside unit sheet) }
{
    *after = 0;
    match plate_write::plate_add(buffer, used as usize, picture, w, h, unit, sheet) {
        Err(refusal) => refusal.number(),
        Ok(n) => {
            *after = n as u64;
            0
        }
    }
}
