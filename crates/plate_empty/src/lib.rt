// Writing plates in a lent buffer: an empty one.
#![tactic(auto)]

ghost use Rattle.std.specs.Prelude.{◌≡◌};
ghost use Rattle.plate_empty.specs.Outcome.{grows, start_outcome};

use picture::{Refusal, refuse_if};

// Starts a plate of no pictures, of that version, at the buffer's start, and answers its length in use.
pub fn plate_start(buffer: &mut [u8], version: u32) -> Result<usize, Refusal>
    ensures { grows result buffer.new ≡ start_outcome buffer.old version }
{
    refuse_if(!plate_numbers::known(version), Refusal::BrokenPlate)?;
    let short = buffer.len() < plate_format::HEADER;
    refuse_if(short, Refusal::NoRoom)?;
    plate_table::fields::put_header(buffer, version as u16, 0);
    Ok(plate_format::HEADER)
}
