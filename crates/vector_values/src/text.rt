// Lines of decimal numbers with single spaces between them.
ghost use Rattle.std.specs.Prelude.{◌≡◌, ◌≤◌, ◌<◌, length, MatchOption, IfSome};
ghost use Rattle.vector_values.specs.Numerals.{digit_of, numeral_at, value_in, line_end};

// The most numbers of a line.
pub const MOST_NUMBERS: usize = 8192;

// A buffer for the numbers of a line. Only its length is promised, as of `io::buffer`.
pub fn buffer() -> [u64; MOST_NUMBERS]
    ensures { 8192 ≡ length result }
{
    [0; MOST_NUMBERS]
}

// A number and the place after it.
#[derive(Clone, Copy)]
pub struct Reading {
    pub value: u64,
    pub end: usize,
}

// What a digit counts.
#[tactic(auto, unfolding(crate::specs::Numerals::digit_of))]
fn digit(c: u8) -> Option<u64>
    ensures { MatchOption result (digit_of c ≡ 10) (λ d. (d ≡ digit_of c) × (d < 10)) }
{
    match c {
        b'0'..=b'9' => Some(u64::from(c - b'0')),
        _ => None,
    }
}

// The number whose digits begin at a place, unless no digit stands there or the number does not fit.
fn numeral(text: &[u8], at: usize) -> Option<Reading>
    requires { at ≤ length text.now }
    ensures { result ≡ numeral_at text.now at }
{
    let mut end = at;
    let mut value = 0u64;
    for c in &text[at..] {
        let Some(d) = digit(*c) else {
            break;
        };
        value = value.checked_mul(10)?.checked_add(d)?;
        end += 1;
    }
    (at < end).then_some(Reading { value, end })
}

// Where the line at a place ends: at a newline, or at the end of the text.
pub fn line_end(text: &[u8], at: usize) -> usize
    requires { at ≤ length text.now }
    ensures value { result ≡ line_end text.now at }
    ensures lower_bound { (at ≤ result) × (result ≤ length text.now) }
{
    // By its index: with `position` over the rest of the text the proof of `value` did not close.
    for i in at..text.len() {
        if text[i] == b'\n' {
            return i;
        }
    }
    text.len()
}

// The number that a line begins with, or 0.
pub fn first(line: &[u8]) -> u64
    ensures { result ≡ value_in (numeral_at line.now 0) }
{
    numeral(line, 0).map_or(0, |n| n.value)
}

// Takes the numbers of a line, and answers how many there are, unless the line is broken or too long.
pub fn numbers(line: &[u8], out: &mut [u64]) -> Option<usize>
    ensures { IfSome result (λ n. n ≤ length out.new) }
{
    let mut at = 0;
    for (i, place) in out.iter_mut().enumerate() {
        let Reading { value, end } = numeral(line, at)?;
        *place = value;
        if line.len() <= end {
            return Some(i + 1);
        }
        if line[end] != b' ' {
            return None;
        }
        at = end + 1;
    }
    None
}
