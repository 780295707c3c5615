// A picture that is to be added to a plate: whether some bytes are a plate, the entry that the picture gets, and whether there is room.
#![tactic(auto)]

ghost use Rattle.std.specs.Prelude.{◌≡◌, true, false, ◌<◌, ◌≤◌, length};
ghost use Rattle.picture.specs.Refusal.{wrong_sides};
ghost use Rattle.plate_numbers.specs.Numbers.{version, labelled, wrong_unit};
ghost use Rattle.plate_format.specs.Format.{is_plate};
ghost use Rattle.plate.specs.Lookup.{beside};
ghost use Rattle.plate_room.specs.Room.{no_plate, given, new_entry, length_after, no_room};

use plate_format::Entry;

// Whether the length in use lies beyond the buffer, that stretch is no plate, or the unit is none of its version's.
pub fn no_plate(buffer: &[u8], used: usize, unit: u32) -> bool
    ensures { result ≡ no_plate buffer.now used unit }
{
    if buffer.len() < used {
        return true;
    }
    if !plate_format::is_plate(&buffer[0..used]) {
        return true;
    }
    plate_numbers::wrong_unit(plate_numbers::version(&buffer[0..used]), unit)
}

// A unit or a sheet that is given: version 1 ignores it.
fn given(v: u16, n: u32) -> u16
    requires { labelled v ≡ true → n < 65536 }
    ensures { result ≡ given v n }
{
    if plate_numbers::labelled(v) {
        n as u16
    } else {
        0
    }
}

// The entry of a picture of w by h pixels that is added to this plate.
pub fn new_entry(plate: &[u8], w: u32, h: u32, unit: u32, sheet: u16) -> Entry
    requires { (4 ≤ length plate.now) × (wrong_sides w h ≡ false) × (length_after plate.now w h < 4294967296) × (wrong_unit (version plate.now) unit ≡ false) }
    ensures { result ≡ new_entry plate.now w h (beside unit sheet) }
{
    let v = plate_numbers::version(plate);
    let size = picture::full_size(w, h);
    let start = plate.len() + plate_numbers::entry_size(v);
    Entry {
        width: w as u16,
        height: h as u16,
        offset: start as u32,
        length: size.bytes() as u32,
        unit: given(v, unit),
        sheet: given(v, sheet as u32),
    }
}

// Whether a picture of w by h pixels has no room: in the plate's table, in its version's bytes, or in the buffer.
pub fn no_room(room: usize, plate: &[u8], w: u32, h: u32) -> bool
    requires { (is_plate plate.now ≡ true) × (wrong_sides w h ≡ false) }
    ensures { result ≡ no_room room plate.now w h }
{
    if plate_format::MAX_COUNT < plate_numbers::count(plate) + 1 {
        return true;
    }
    let v = plate_numbers::version(plate);
    let whole = plate.len() + plate_numbers::entry_size(v) + picture::full_size(w, h).bytes();
    if plate_numbers::largest_whole(v) < whole {
        return true;
    }
    room < whole
}
