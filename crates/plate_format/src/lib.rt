// The plate file: its table, and whether some bytes are a plate.
#![tactic(auto)]

ghost use Rattle.std.specs.Prelude.{◌≡◌, true, ◌+◌, ◌<◌, ◌≤◌, length};
ghost use Rattle.plate_numbers.specs.Numbers.{version, count, labelled};
ghost use Rattle.plate_format.specs.Format.{entry_at, label_at, entry_of, body_offset, obeys, filled, is_plate};
ghost use Rattle.plate_format.specs.Needs.{Tabled};

// The version and the count stand in the first bytes, and the table after them.
pub const HEADER: usize = 4;

// The most pictures of a plate.
pub const MAX_COUNT: usize = 64;

// One entry of the table, as the file has it; version 1 has no unit and no sheet, which are 0 there.
#[derive(Clone, Copy)]
pub struct Entry {
    pub width: u16,
    pub height: u16,
    pub offset: u32,
    pub length: u32,
    pub unit: u16,
    pub sheet: u16,
}

// Where entry i of the table stands.
pub fn entry_at(file: &[u8], i: usize) -> usize
    requires { (4 ≤ length file.now) × (i < 65536) }
    ensures { result ≡ entry_at file.now i }
{
    HEADER + i * plate_numbers::entry_size(plate_numbers::version(file))
}

// Where the table ends and the first body starts.
pub fn table_end(file: &[u8]) -> usize
    requires { Tabled file.now }
    ensures { result ≡ body_offset file.now 0 }
{
    entry_at(file, plate_numbers::count(file))
}

// A number of two bytes that version 1 does not have.
fn label_at(v: u16, file: &[u8], at: usize) -> u16
    requires { labelled v ≡ true → at + 1 < length file.now }
    ensures { result ≡ label_at v file.now at }
{
    if plate_numbers::labelled(v) {
        plate_numbers::u16_at(file, at)
    } else {
        0
    }
}

// Entry i of the table.
pub fn read_entry(file: &[u8], i: usize) -> Entry
    requires { Tabled file.now × (i < count file.now) }
    ensures { result ≡ entry_of file.now i }
{
    let v = plate_numbers::version(file);
    let at = entry_at(file, i);
    Entry {
        width: plate_numbers::u16_at(file, at),
        height: plate_numbers::u16_at(file, at + 2),
        offset: plate_numbers::u32_at(file, at + 4),
        length: plate_numbers::u32_at(file, at + 8),
        unit: label_at(v, file, at + 12),
        sheet: label_at(v, file, at + 14),
    }
}

// Whether an entry whose body starts here obeys the rules.
fn obeys(v: u16, start: usize, e: Entry) -> bool
    ensures { result ≡ obeys v start e }
{
    let w = e.width as u32;
    let h = e.height as u32;
    if picture::sides_outside(plate_numbers::largest_side(v), w, h) {
        return false;
    }
    if picture::wrong_length(e.length as usize, w, h) {
        return false;
    }
    if plate_numbers::wrong_unit(v, e.unit as u32) {
        return false;
    }
    e.offset as usize == start
}

// Whether every entry obeys, and after the bodies there is nothing.
fn filled(file: &[u8]) -> bool
    requires { Tabled file.now }
    ensures { result ≡ filled file.now }
{
    let v = plate_numbers::version(file);
    let n = plate_numbers::count(file);
    let mut start = table_end(file);
    for i in 0..n {
        let e = read_entry(file, i);
        if !obeys(v, start, e) {
            return false;
        }
        start += e.length as usize;
    }
    file.len() == start
}

// Whether these bytes are a plate.
pub fn is_plate(file: &[u8]) -> bool
    ensures { result ≡ is_plate file.now }
{
    if file.len() < HEADER {
        return false;
    }
    let v = plate_numbers::version(file);
    if !plate_numbers::known(v as u32) {
        return false;
    }
    let n = plate_numbers::count(file);
    if MAX_COUNT < n {
        return false;
    }
    if plate_numbers::largest_whole(v) < file.len() {
        return false;
    }
    if file.len() < entry_at(file, n) {
        return false;
    }
    filled(file)
}
