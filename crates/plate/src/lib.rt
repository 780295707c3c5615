// Picture of a plate: which stretch of the caller's own file it is, and which unit and sheet stand beside it.
#![tactic(auto)]

ghost use Rattle.std.specs.Prelude.{◌≡◌};
ghost use Rattle.picture.specs.Slice.{slice_part};
ghost use Rattle.plate.specs.Lookup.{answers, looked_up, stretch_of, unit_number, UnitOf, labels, labelled_up, Finds};

use picture::{FullSize, Refusal, refuse_if};
use plate_format::Entry;

// A stretch of a plate file: where it starts, and how long it is.
#[derive(Clone, Copy)]
pub struct Stretch {
    pub offset: usize,
    pub length: usize,
}

// A picture of a plate: its size, and its stretch of the file.
#[derive(Clone, Copy)]
pub struct Found {
    pub size: FullSize,
    pub stretch: Stretch,
}

// The unit of a picture, by its number: none in version 1.
#[derive(Clone, Copy, Debug, PartialEq, Eq)]
pub enum Unit {
    Unnamed = 0,
    Milliohm = 1,
    Microohm = 2,
}

impl Unit {
    // The number of a unit, as a plate has it.
    pub fn number(self) -> u32
        ensures { result ≡ unit_number self }
    {
        self as u32
    }
}

impl TryFrom<u16> for Unit {
    type Error = Refusal;

    ghost try_from_gives = { UnitOf };

    fn try_from(number: u16) -> Result<Unit, Refusal> {
        match number {
            0 => Ok(Unit::Unnamed),
            1 => Ok(Unit::Milliohm),
            2 => Ok(Unit::Microohm),
            _ => Err(Refusal::BrokenPlate),
        }
    }
}

// What stands beside a picture: its unit and its sheet.
#[derive(Clone, Copy)]
pub struct Label {
    pub unit: Unit,
    pub sheet: u16,
}

// The entry of that index, counted from 0.
fn entry_of(plate: &[u8], index: u32) -> Result<Entry, Refusal>
    ensures { Finds plate.now index result }
{
    refuse_if(!plate_format::is_plate(plate), Refusal::BrokenPlate)?;
    let i = index as usize;
    refuse_if(plate_numbers::count(plate) <= i, Refusal::NoPicture)?;
    Ok(plate_format::read_entry(plate, i))
}

// The unit and the sheet of the picture of that index.
pub fn find_label(plate: &[u8], index: u32) -> Result<Label, Refusal>
    ensures { labels result ≡ labelled_up plate.now index }
{
    let entry = entry_of(plate, index)?;
    let unit = Unit::try_from(entry.unit)?;
    Ok(Label {
        unit,
        sheet: entry.sheet,
    })
}

// The picture of that index, counted from 0: its size and its stretch of the file.
pub fn find_picture(plate: &[u8], index: u32) -> Result<Found, Refusal>
    ensures { answers result ≡ looked_up plate.now index }
{
    let entry = entry_of(plate, index)?;
    Ok(Found {
        size: picture::full_size(entry.width as u32, entry.height as u32),
        stretch: Stretch {
            offset: entry.offset as usize,
            length: entry.length as usize,
        },
    })
}

// The picture of that index as a part of the caller's own file: an empty part where it is refused.
pub fn plate_picture(plate: &[u8], index: u32) -> &[u8]
    ensures { slice_part result ≡ stretch_of plate.entry (looked_up plate.now index).left }
{
    let Ok(found) = find_picture(plate, index) else {
        return &plate[..0];
    };
    let a = found.stretch.offset;
    let b = a + found.stretch.length;
    &plate[a..b]
}
