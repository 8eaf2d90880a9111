// The first line of a sheet: PLAN with the number of calls, or CANNOT with a smaller one.
ghost use Rattle.std.specs.Prelude.{◌≡◌, ◌↔◌, length, IsTrue};
ghost use Rattle.std.proofs.Math.Option.{some};
ghost use Rattle.model.specs.Text.{plan_word, cannot_word};
ghost use Rattle.model.specs.ReadSheet.{numbers_after};
ghost use Rattle.job.specs.Lists.{job_of};
ghost use Rattle.sheet.specs.Parts.{as_read, only_of, if_below};

use crate::numbers::only_number;
use job::state::Job;

// Whether the lines after this one are those of a plan.
pub fn is_plan(job: &Job, line: &[u8]) -> bool
    ensures { IsTrue result ↔ (only_of (numbers_after plan_word line.now) ≡ some (length (job_of job.now).calls)) }
{
    only_number(line, b"PLAN\t") == Some(job.calls.len())
}

// How many choke points a CANNOT line announces.
pub fn choke_count(job: &Job, line: &[u8]) -> Option<usize>
    ensures { as_read result ≡ if_below (length (job_of job.now).calls) (only_of (numbers_after cannot_word line.now)) }
{
    let count = only_number(line, b"CANNOT\t")?;
    if job.calls.len() <= count {
        return None;
    }
    Some(count)
}
