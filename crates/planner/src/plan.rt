// A job planned and its sheet written.
ghost use Rattle.std.specs.Prelude.{◌≡◌, ◌≤◌, length};
ghost use Rattle.model.specs.Job.{store_least, sheet_least};
ghost use Rattle.model.specs.Ready.{Ready};
ghost use Rattle.job.specs.Lists.{job_of};
ghost use Rattle.planner.specs.Written.{Written};

use crate::solve::{Solution, solve};
use job::held::Ride;
use job::state::Job;
use model::Limits;
use model::answer::{Answer, packed};

// The answer, packed with the bytes of the sheet.
pub fn plan_job(job: &Job, store: &mut [u8], sheet: &mut [u8]) -> u64
    requires { Ready (job_of job.now) × (store_least (job_of job.now) ≤ length store.old) × (sheet_least (job_of job.now) ≤ length sheet.old) }
    ensures { (length store.new ≡ length store.old) × Written (job_of job.now) sheet.old sheet.new result }
{
    let mut rides = [Ride::BLANK; Limits::CARTS];
    let rides = &mut rides[..job.carts.len()];
    match solve(job, store, rides) {
        Solution::Plan => packed(
            Answer::Plan,
            sheetwriter::put_plan(job, rides, sheet) as u64,
        ),
        Solution::Cannot(chokes) => packed(
            Answer::Cannot,
            sheetwriter::put_cannot(job, chokes.as_slice(), sheet) as u64,
        ),
    }
}
