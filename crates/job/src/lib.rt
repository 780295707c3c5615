// The plate job: each body is blurred where it lies inside the lent file.
#![tactic(auto)]

mod longest;

ghost use Rattle.std.specs.Prelude.{◌≡◌, true, ◌≤◌, length};
ghost use Rattle.picture.specs.Planes.{cleared};
ghost use Rattle.picture.specs.Answer.{answered, lent};
ghost use Rattle.picture.specs.Refusal.{number_of};
ghost use Rattle.plate_format.specs.Format.{is_plate};
ghost use Rattle.body_blur.specs.Blur.{plate_blur};
ghost use Rattle.job.specs.Job.{longest_body, jobbed, job_outcome};

use crate::longest::longest_body;
use picture::{Refusal, refuse_if};

// Blurs every body in table order: there are no gaps, so each starts where the one before it ends.
fn blur_bodies(plate: &mut [u8], scratch: &mut [u8])
    requires { (is_plate plate.old ≡ true) × (longest_body plate.old ≤ length scratch.old) }
    ensures { lent plate.new scratch.new ≡ lent (jobbed plate_blur plate.old) (cleared (longest_body plate.old) scratch.old) }
{
    let n = plate_numbers::count(plate);
    let mut start = plate_format::table_end(plate);
    for i in 0..n {
        start = body_blur::blur_body(plate, i, start, scratch);
    }
}

// The plate job: each body blurred where it lies, the used part of the scratch zero; or the refusal.
pub fn plate_job(plate: &mut [u8], scratch: &mut [u8]) -> Result<(), Refusal>
    ensures { answered (number_of result) (lent plate.new scratch.new) ≡ job_outcome plate_blur plate.old scratch.old }
{
    refuse_if(!plate_format::is_plate(plate), Refusal::BrokenPlate)?;
    refuse_if(scratch.len() < longest_body(plate), Refusal::TooShort)?;
    blur_bodies(plate, scratch);
    Ok(())
}
