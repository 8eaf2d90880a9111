// Whether paths and spare carts' rides are a plan in the order of the sheet: each path a walk of its cart to its call, each ride one to the last step, and no two carts sharing a cell or
// trading places. The spare carts' rides stand behind the paths.
ghost use Rattle.std.specs.Prelude.{◌≡◌, true, length};
ghost use Rattle.model.specs.Lists.{In};
ghost use Rattle.model.specs.Plan.{Path, Ride};
ghost use Rattle.model.specs.Ready.{Ready};
ghost use Rattle.model.specs.ReadSheet.{known_path, known_spare};
ghost use Rattle.model.specs.Promises.{RightPlan};
ghost use Rattle.job.specs.Lists.{job_of};
ghost use Rattle.job.specs.Held.{paths_to, spares_from, Decides};

use crate::clear::all_clear;
use crate::order::{in_order, spares_rise};
use crate::walks::Floor;
use job::held;
use job::state::Job;

// In a frame of its own: put in line, its tables and those of choke lists stand on the stack of the check together.
#[inline(never)]
pub fn is_plan(job: &Job, rides: &[held::Ride]) -> bool
    requires ready { Ready (job_of job.now) }
    requires size { length rides.now ≡ length (job_of job.now).carts }
    requires paths { let j = job_of job.now in (p : Path) → In p (paths_to rides.now (length j.calls)) → known_path j p ≡ true }
    requires spares { let j = job_of job.now in (r : Ride) → In r (spares_from rides.now (length j.calls)) → known_spare j r ≡ true }
    ensures { let j = job_of job.now in Decides result (RightPlan j (paths_to rides.now (length j.calls)) (spares_from rides.now (length j.calls))) }
{
    let carts = job.carts.as_slice();
    let calls = job.calls.as_slice();
    let (paths, spares) = rides.split_at(calls.len());
    if !in_order(calls, paths) {
        return false;
    }
    if !spares_rise(spares) {
        return false;
    }
    let mut floor = Floor::new();
    floor.fill(job);
    if !floor.all_lead(carts, calls, paths) {
        return false;
    }
    if !floor.all_stay(carts, spares) {
        return false;
    }
    all_clear(rides, job.last_step())
}
