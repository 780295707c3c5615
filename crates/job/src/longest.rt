// The longest body of a plate: how much of the scratch the job uses.
ghost use Rattle.std.specs.Prelude.{◌≡◌};
ghost use Rattle.plate_format.specs.Needs.{Tabled};
ghost use Rattle.job.specs.Job.{longest_body};

// The longest body's length, 0 for a plate without pictures.
pub(crate) fn longest_body(plate: &[u8]) -> usize
    requires { Tabled plate.now }
    ensures { result ≡ longest_body plate.now }
{
    let n = plate_numbers::count(plate);
    let mut longest: usize = 0;
    for i in 0..n {
        let e = plate_format::read_entry(plate, i);
        longest = longest.max(e.length as usize);
    }
    longest
}
