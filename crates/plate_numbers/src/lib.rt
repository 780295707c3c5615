// The numbers of a plate file, and what its version fixes.
#![tactic(auto)]

ghost use Rattle.std.specs.Prelude.{◌≡◌, ◌+◌, ◌<◌, ◌≤◌, length};
ghost use Rattle.plate_numbers.specs.Numbers.{u16_at, u32_at, version, count, known, labelled, entry_size, larger, largest_side, largest_whole, wrong_unit};

// The newest version of the plate file.
const NEWEST: usize = 3;

// A number of two bytes, little-endian.
pub fn u16_at(file: &[u8], at: usize) -> u16
    requires { at + 1 < length file.now }
    ensures { result ≡ u16_at file.now at }
{
    u16::from_le_bytes([file[at], file[at + 1]])
}

// A number of four bytes, little-endian.
pub fn u32_at(file: &[u8], at: usize) -> u32
    requires { at + 3 < length file.now }
    ensures { result ≡ u32_at file.now at }
{
    u32::from_le_bytes([file[at], file[at + 1], file[at + 2], file[at + 3]])
}

// Which version the plate says it is of.
pub fn version(file: &[u8]) -> u16
    requires { 4 ≤ length file.now }
    ensures { result ≡ version file.now }
{
    u16_at(file, 0)
}

// How many pictures the plate says it has.
pub fn count(file: &[u8]) -> usize
    requires { 4 ≤ length file.now }
    ensures { result ≡ count file.now }
{
    u16_at(file, 2) as usize
}

// Whether there is such a version of the plate file.
pub fn known(v: u32) -> bool
    ensures { result ≡ known v }
{
    !picture::zero_or_above(NEWEST, v as usize)
}

// Whether a version has a unit and a sheet beside each picture.
pub fn labelled(v: u16) -> bool
    ensures { result ≡ labelled v }
{
    v != 1
}

// How many bytes an entry of this version's table has.
pub fn entry_size(v: u16) -> usize
    ensures { result ≡ entry_size v }
{
    if labelled(v) { 16 } else { 12 }
}

// Whether a version is for larger scans.
fn larger(v: u16) -> bool
    ensures { result ≡ larger v }
{
    v == 3
}

// The largest side of a picture in a plate of this version.
pub fn largest_side(v: u16) -> usize
    ensures { result ≡ largest_side v }
{
    if larger(v) { picture::MAX_SIDE } else { 4096 }
}

// The most bytes that a plate of this version has.
pub fn largest_whole(v: u16) -> usize
    ensures { result ≡ largest_whole v }
{
    if larger(v) { 16777216 } else { 16384 }
}

// Whether a unit is none of this version's.
pub fn wrong_unit(v: u16, unit: u32) -> bool
    ensures { result ≡ wrong_unit v unit }
{
    if !labelled(v) {
        return false;
    }
    picture::zero_or_above(2, unit as usize)
}
