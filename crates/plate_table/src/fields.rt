// Numbers, a header and an entry of a plate, written where they stand.
ghost use Rattle.std.specs.Prelude.{◌≡◌, ◌+◌, ◌≤◌, length};
ghost use Rattle.picture.specs.Planes.{laid};
ghost use Rattle.plate_numbers.specs.Numbers.{entry_size};
ghost use Rattle.plate_written.specs.Written.{bytes16, bytes32, header_bytes, label_bytes, entry_bytes};
ghost use Rattle.plate_table.specs.Steps.{laid_at};

use plate_format::Entry;

// A number in two bytes, little-endian.
fn put_u16(bytes: &mut [u8], at: usize, x: u16)
    requires { at + 2 ≤ length bytes.old }
    ensures { bytes.new ≡ laid_at at (bytes16 x) bytes.old }
{
    bytes[at..at + 2].copy_from_slice(&x.to_le_bytes());
}

// A number in four bytes, little-endian.
fn put_u32(bytes: &mut [u8], at: usize, x: u32)
    requires { at + 4 ≤ length bytes.old }
    ensures { bytes.new ≡ laid_at at (bytes32 x) bytes.old }
{
    bytes[at..at + 4].copy_from_slice(&x.to_le_bytes());
}

// The version and the count, in the first four bytes.
pub fn put_header(bytes: &mut [u8], v: u16, count: u16)
    requires { 4 ≤ length bytes.old }
    ensures { bytes.new ≡ laid (header_bytes v count) bytes.old }
{
    put_u16(bytes, 0, v);
    put_u16(bytes, 2, count);
}

// A unit and a sheet, which version 1 does not have.
fn put_label(bytes: &mut [u8], at: usize, v: u16, unit: u16, sheet: u16)
    requires { at + length (label_bytes v unit sheet) ≤ length bytes.old }
    ensures { bytes.new ≡ laid_at at (label_bytes v unit sheet) bytes.old }
{
    if plate_numbers::labelled(v) {
        put_u16(bytes, at, unit);
        put_u16(bytes, at + 2, sheet);
    }
}

// An entry of a table of this version.
pub fn put_entry(bytes: &mut [u8], at: usize, v: u16, e: Entry)
    requires { at + entry_size v ≤ length bytes.old }
    ensures { bytes.new ≡ laid_at at (entry_bytes v e) bytes.old }
{
    put_u16(bytes, at, e.width);
    put_u16(bytes, at + 2, e.height);
    put_u32(bytes, at + 4, e.offset);
    put_u32(bytes, at + 8, e.length);
    put_label(bytes, at + 12, v, e.unit, e.sheet);
}
