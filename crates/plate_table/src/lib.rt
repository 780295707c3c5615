// Header and table of a plate, written where they stand: the table of a plate that gets one entry more, anew from front to back.
#![tactic(auto)]

pub mod fields;

ghost use Rattle.std.specs.Prelude.{◌≡◌, ◌+◌, ◌<◌};
ghost use Rattle.picture.specs.Planes.{laid};
ghost use Rattle.plate_numbers.specs.Numbers.{version, count, entry_size};
ghost use Rattle.plate_format.specs.Format.{entry_at, entry_of};
ghost use Rattle.plate_format.specs.Needs.{Tabled};
ghost use Rattle.plate_written.specs.Written.{entry_bytes, table_of};
ghost use Rattle.plate_table.specs.Table.{further, head_after};
ghost use Rattle.plate_table.specs.Steps.{laid_at, Retabling};

use crate::fields::{put_entry, put_header};
use plate_format::Entry;

// Entry i, its body one table entry further on.
fn shift_entry(bytes: &mut [u8], i: usize)
    requires { Tabled bytes.old × (i < count bytes.old) × ((entry_of bytes.old i).offset + entry_size (version bytes.old) < 4294967296) }
    ensures { bytes.new ≡ laid_at (entry_at bytes.old i) (entry_bytes (version bytes.old) (further (entry_size (version bytes.old)) (entry_of bytes.old i))) bytes.old }
{
    let v = plate_numbers::version(bytes);
    let e = plate_format::read_entry(bytes, i);
    let at = plate_format::entry_at(bytes, i);
    let further = Entry {
        offset: e.offset + plate_numbers::entry_size(v) as u32,
        ..e
    };
    put_entry(bytes, at, v, further);
}

// Every entry, its body one table entry further on: each is read before it is written, and none is read again.
fn shift_entries(bytes: &mut [u8])
    requires { Retabling bytes.old }
    ensures { bytes.new ≡ laid_at 4 (table_of (version bytes.old) (λ i. further (entry_size (version bytes.old)) (entry_of bytes.old i)) (count bytes.old)) bytes.old }
{
    let n = plate_numbers::count(bytes);
    for i in 0..n {
        shift_entry(bytes, i);
    }
}

// The header and the table of a plate that gets this entry.
pub fn retable(bytes: &mut [u8], new: Entry)
    requires { Retabling bytes.old }
    ensures { bytes.new ≡ laid (head_after bytes.old new) bytes.old }
{
    let v = plate_numbers::version(bytes);
    let n = plate_numbers::count(bytes);
    let end = plate_format::table_end(bytes);
    shift_entries(bytes);
    put_entry(bytes, end, v, new);
    put_header(bytes, v, (n + 1) as u16);
}
