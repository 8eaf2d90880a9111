// The last step of a job, and the least lengths of the buffers lent for it.
ghost use Rattle.std.specs.Prelude.{◌≡◌, ◌<◌, ◌≤◌, map};
ghost use Rattle.model.specs.Limits.{max_cells, max_steps};
ghost use Rattle.model.specs.Job.{latest, horizon, store_least, sheet_least};
ghost use Rattle.job.specs.Lists.{as_call, job_of};

use crate::state::{Call, Job};

// The largest deadline, 0 if there are no calls.
pub fn horizon(calls: &[Call]) -> usize
    ensures { (result ≡ latest (map as_call calls.now)) × (result < max_steps) }
{
    let mut last = 0;
    for call in calls {
        last = last.max(usize::from(call.deadline));
    }
    last
}

impl Job {
    pub fn last_step(&self) -> usize
        ensures { (result ≡ horizon (job_of self.now)) × (result < max_steps) }
    {
        self::horizon(self.calls.as_slice())
    }

    pub fn store_least(&self) -> usize
        requires { self.now.cells ≤ max_cells }
        ensures { result ≡ store_least (job_of self.now) }
    {
        let steps = self.last_step() + 1;
        steps * 32 * (self.cells + 2 * self.tracks.len()) + 4096
    }

    pub fn sheet_least(&self) -> usize
        ensures { result ≡ sheet_least (job_of self.now) }
    {
        let steps = self.last_step() + 1;
        self.carts.len() * (4 * steps + 16) + 64
    }
}
