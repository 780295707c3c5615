// Runs the stored vectors on standard input through the library, and prints how many agree.
#![tactic(auto)]

ghost use Rattle.std.specs.Prelude.{◌≡◌, length};

use vector_values::text;
use vectors::agrees;

// The standard streams. They are read and written by `io`: std has no call that reads into an array up to the end of the input,
// and its printing makes an error of a write that fails, after which this program goes on.
const STDIN: i32 = 0;

const STDOUT: i32 = 1;

// The most bytes that the program takes.
const LONGEST: usize = 1048576;

// The entries of the library in the order in which they are printed, with their numbers in the vectors.
const ENTRIES: [(&str, u64); 28] = [
    ("blur", 1),
    ("shift", 2),
    ("shadow", 3),
    ("check", 4),
    ("view", 5),
    ("sample", 6),
    ("spread", 7),
    ("plate picture", 8),
    ("plate job", 9),
    ("plate start", 10),
    ("plate add", 11),
    ("plate label", 12),
    ("image read", 13),
    ("image written", 14),
    ("mend", 15),
    ("rebuild", 16),
    ("whole-number blur", 17),
    ("area build", 18),
    ("area box", 19),
    ("area update", 20),
    ("share", 27),
    ("share list", 28),
    ("to planes", 21),
    ("from planes", 22),
    ("blur on planes", 23),
    ("shift on planes", 24),
    ("shadow on planes", 25),
    ("list of recipes", 26),
];

// How many vectors of an entry there are, how many of them agree, and the line of the first that does not.
#[derive(Clone, Copy)]
struct Tally {
    seen: u64,
    agreed: u64,
    first: Option<u64>,
}

// Whether a line's vector agrees, unless it is of another entry than the one that is asked for: such a line is read no further
// than its first number. A line that is broken is a vector that does not agree.
fn verdict(line: &[u8], entry: Option<u64>) -> Option<bool> {
    if entry.is_some_and(|entry| text::first(line) != entry) {
        return None;
    }
    let mut space = text::buffer();
    Some(text::numbers(line, &mut space).is_some_and(|n| agrees(&space[..n])))
}

// The vectors of an entry, or of all lines.
fn count(input: &[u8], entry: Option<u64>) -> Tally {
    let mut tally = Tally {
        seen: 0,
        agreed: 0,
        first: None,
    };
    let mut line = 0u64;
    let mut at = 0usize;

    // A step is as long as its line.
    while at < input.len() {
        let end = text::line_end(input, at);
        line += 1;
        if let Some(agrees) = verdict(&input[at..end], entry) {
            tally.seen += 1;
            if agrees {
                tally.agreed += 1;
            } else if tally.first.is_none() {
                tally.first = Some(line);
            }
        }
        at = end + 1;
    }
    tally
}

fn print_count(name: &str, c: Tally) {
    io::write_all(STDOUT, name.as_bytes());
    io::write_all(STDOUT, b" ");
    io::print_decimal(STDOUT, c.agreed);
    io::write_all(STDOUT, b" of ");
    io::print_decimal(STDOUT, c.seen);
    io::write_all(STDOUT, b"\n");
}

// Every line is counted anew for the totals, so that a line of no entry is in them.
fn print_totals(c: Tally) {
    if let Some(line) = c.first {
        io::write_all(STDOUT, b"first that disagrees: line ");
        io::print_decimal(STDOUT, line);
        io::write_all(STDOUT, b"\n");
    }
    print_count("all", c);
}

fn report(input: &[u8]) {
    for (name, entry) in ENTRIES {
        print_count(name, count(input, Some(entry)));
    }
    print_totals(count(input, None));
}

// Room for one byte more than the program takes. Only its length is promised, as of `io::buffer`.
fn room() -> [u8; LONGEST + 1]
    ensures { 1048577 ≡ length result }
{
    [0; LONGEST + 1]
}

// One byte more than the program takes is read, so that no vector is left out unsaid.
fn main() {
    let mut input = room();
    let n = io::read_full(STDIN, &mut input);
    if LONGEST < n {
        io::write_all(STDOUT, b"the input is too long\n");
    } else {
        report(&input[..n]);
    }
}
