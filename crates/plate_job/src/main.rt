// Reads a plate on standard input and writes it with each picture blurred, or `refused 10` and a newline.
#![tactic(auto)]

ghost use Rattle.std.specs.Prelude.{◌≡◌, ◌≤◌, length};
ghost use Rattle.picture.specs.Answer.{answered};
ghost use Rattle.picture.specs.Refusal.{number_of};
ghost use Rattle.plate_job.specs.Program.{longest_input, answer_to};

use picture::{Refusal, refuse_if};

// The standard streams.
const STDIN: i32 = 0;

const STDOUT: i32 = 1;

// The most bytes that the program takes.
const LONGEST: usize = 16384;

// Runs the job in place. The scratch has room for any body, so that 10 is the one refusal.
fn run(input: &mut [u8], scratch: &mut [u8]) -> Result<(), Refusal>
    requires { longest_input ≤ length scratch.old }
    ensures { answered (number_of result) input.new ≡ answer_to input.old }
{
    refuse_if(LONGEST < input.len(), Refusal::BrokenPlate)?;
    job::plate_job(input, scratch)
}

fn answer(input: &mut [u8], scratch: &mut [u8])
    requires { longest_input ≤ length scratch.old }
{
    match run(input, scratch) {
        Ok(()) => io::write_all(STDOUT, input),
        Err(_) => io::write_all(STDOUT, b"refused 10\n"),
    };
}

// One byte more than the program takes is read, so that a longer input is told from the longest.
fn main() {
    let mut input = [0u8; LONGEST + 1];
    let mut scratch = [0u8; LONGEST];
    let n = io::read_full(STDIN, &mut input);
    answer(&mut input[..n], &mut scratch);
}
