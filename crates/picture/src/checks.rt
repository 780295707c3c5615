// Why a call is refused, and the checks that several entries share.
ghost use Rattle.std.specs.Prelude.{◌≡◌};
ghost use Rattle.picture.specs.Refusal.{first_of, zero_or_above, sides_outside, wrong_sides, wrong_length, too_short, wrong_taps, too_deep, wrong_edge, picture_checks, number, number_of, refused_if};

use crate::{MAX_DECIMATIONS, MAX_SIDE, MAX_TAPS};

// Why a call is refused. C is answered the number; 0 is done.
#[derive(Clone, Copy, Debug, PartialEq, Eq)]
pub enum Refusal {
    WrongSides = 1,
    WrongLength = 2,
    TooShort = 3,
    WrongTaps = 4,
    WrongWeight = 5,
    TooDeep = 6,
    NotFinite = 7,
    WrongColour = 8,
    WrongEdge = 9,
    BrokenPlate = 10,
    OffGrid = 11,
    NoPicture = 12,
    NoRoom = 13,
    WrongSum = 14,
    NoPam = 15,
    Exceeds = 16,
    ListFull = 17,
    WrongList = 18,
    WrongRecipe = 19,
    WrongBox = 20,
    TooDeepToShare = 21,
    Outside = 22,
}

impl Refusal {
    // The refusal's number.
    pub fn number(self) -> u32
        ensures { result ≡ number self }
    {
        self as u32
    }
}

// The number that C is answered: the refusal's, or 0 where the call is done.
#[tactic(auto, unfolding(crate::specs::Refusal::number_of))]
pub fn number_of(answer: Result<(), Refusal>) -> u32
    ensures { result ≡ number_of answer }
{
    match answer {
        Ok(()) => 0,
        Err(refusal) => refusal.number(),
    }
}

// Refuses where a check does, and else goes on.
pub fn refuse_if(refuses: bool, refusal: Refusal) -> Result<(), Refusal>
    ensures { result ≡ refused_if refuses refusal }
{
    if refuses { Err(refusal) } else { Ok(()) }
}

// A count that is 0 or above the most there may be.
#[tactic(auto, unfolding(crate::specs::Refusal::zero_or_above))]
pub fn zero_or_above(most: usize, count: usize) -> bool
    ensures { result ≡ zero_or_above most count }
{
    count == 0 || most < count
}

// Whether one of these sides is 0 or above the largest there may be.
pub fn sides_outside(most: usize, w: u32, h: u32) -> bool
    ensures { result ≡ sides_outside most w h }
{
    zero_or_above(most, w as usize) || zero_or_above(most, h as usize)
}

// Refusal 1's condition.
#[tactic(auto, unfolding(crate::specs::Refusal::wrong_sides, crate::specs::Sizes::max_side))]
pub fn wrong_sides(w: u32, h: u32) -> bool
    ensures { result ≡ wrong_sides w h }
{
    sides_outside(MAX_SIDE, w, h)
}

// Refusal 2's condition. No product wraps, whatever the sides are.
pub fn wrong_length(len: usize, w: u32, h: u32) -> bool
    ensures { result ≡ wrong_length len w h }
{
    len % 4 != 0 || len / 4 != w as usize * h as usize
}

// Checks 1 and 2, which every entry on a picture begins with.
#[tactic(auto, unfolding(crate::specs::Refusal::number_of, crate::specs::Refusal::number, crate::specs::Refusal::first_of, crate::specs::Refusal::first_else))]
pub fn check_picture(len: usize, w: u32, h: u32) -> Result<(), Refusal>
    ensures { number_of result ≡ first_of (picture_checks len w h) }
{
    refuse_if(wrong_sides(w, h), Refusal::WrongSides)?;
    refuse_if(wrong_length(len, w, h), Refusal::WrongLength)
}

// Refusal 3's condition, of one work buffer.
pub fn too_short(len: usize, w: u32, h: u32) -> bool
    ensures { result ≡ too_short len w h }
{
    len / 4 < w as usize * h as usize
}

// Refusal 4's condition.
#[tactic(auto, unfolding(crate::specs::Refusal::wrong_taps, crate::specs::Refusal::max_taps))]
pub fn wrong_taps(taps: usize) -> bool
    ensures { result ≡ wrong_taps taps }
{
    zero_or_above(MAX_TAPS, taps)
}

// Refusal 6's condition.
#[tactic(auto, unfolding(crate::specs::Refusal::too_deep, crate::specs::Refusal::max_decimations))]
pub fn too_deep(n: u32) -> bool
    ensures { result ≡ too_deep n }
{
    MAX_DECIMATIONS < n
}

// Refusal 9's condition.
#[tactic(auto, unfolding(crate::specs::Refusal::wrong_edge))]
pub fn wrong_edge(edge: u32) -> bool
    ensures { result ≡ wrong_edge edge }
{
    3 < edge
}
