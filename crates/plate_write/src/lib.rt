// Writing plates in a lent buffer: one picture more at a time.
#![tactic(auto)]

ghost use Rattle.std.specs.Prelude.{◌≡◌};
ghost use Rattle.picture.specs.Planes.{laid};
ghost use Rattle.plate.specs.Lookup.{beside};
ghost use Rattle.plate_room.specs.Room.{in_use, length_after};
ghost use Rattle.plate_empty.specs.Outcome.{grown, grows};
ghost use Rattle.plate_write.specs.Added.{added};
ghost use Rattle.plate_write.specs.Outcome.{add_outcome};
ghost use Rattle.plate_write.specs.Steps.{Adding};

use picture::{Refusal, refuse_if};

// Adds the picture: the bodies move one table entry further, the table is written anew, and the picture comes last.
fn append(
    buffer: &mut [u8],
    used: usize,
    picture: &[u8],
    w: u32,
    h: u32,
    unit: u32,
    sheet: u16,
) -> usize
    requires { Adding buffer.old used w h unit picture.now }
    ensures { grown buffer.new result ≡ grown (laid (added (in_use buffer.old used) w h (beside unit sheet) picture.now) buffer.old) (length_after (in_use buffer.old used) w h) }
{
    let new = plate_room::new_entry(&buffer[0..used], w, h, unit, sheet);
    let end = plate_format::table_end(&buffer[0..used]);
    let start = new.offset as usize;
    let whole = start + picture.len();
    let further = start - used;
    picture::move_bytes(buffer, end, end + further, used - end);
    plate_table::retable(buffer, new);
    pixels::copy_bytes(&mut buffer[start..whole], picture);
    whole
}

// Adds a picture of w by h pixels, with its unit and sheet, to the plate that the first `used` bytes are, and answers its new length; version 1 ignores
// both.
pub fn plate_add(
    buffer: &mut [u8],
    used: usize,
    picture: &[u8],
    w: u32,
    h: u32,
    unit: u32,
    sheet: u16,
) -> Result<usize, Refusal>
    ensures { grows result buffer.new ≡ add_outcome buffer.old used picture.now w h (beside unit sheet) }
{
    refuse_if(
        plate_room::no_plate(buffer, used, unit),
        Refusal::BrokenPlate,
    )?;
    picture::check_picture(picture.len(), w, h)?;
    refuse_if(
        plate_room::no_room(buffer.len(), &buffer[0..used], w, h),
        Refusal::NoRoom,
    )?;
    Ok(append(buffer, used, picture, w, h, unit, sheet))
}
