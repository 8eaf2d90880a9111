// Whether choke points are a true choke list in the order of the sheet: no walk ends at a call without standing on one of them.
ghost use Rattle.std.specs.Prelude.{◌≡◌, ℕ, ◌<◌, ◌≤◌, length};
ghost use Rattle.model.specs.Lists.{In};
ghost use Rattle.model.specs.Limits.{max_calls, max_steps};
ghost use Rattle.model.specs.Choke as choke;
ghost use Rattle.model.specs.Choke.{KnownChoke, ChokesInOrder};
ghost use Rattle.model.specs.Ready.{Ready};
ghost use Rattle.model.specs.Promises.{RightChokes};
ghost use Rattle.job.specs.Lists.{job_of};
ghost use Rattle.job.specs.Held.{as_chokes, Decides};
ghost use Rattle.chokejudge.specs.ChokeLayers.{OneFloor, Closing, MetBy, Reached, SomeMet};
ghost use Rattle.chokejudge.specs.Points.{points_in, Climbs};
ghost use Rattle.chokejudge.specs.Chains.{Chained};

use crate::calls::Meetings;
use crate::layer::{Point, Reach};
use arrayvec::ArrayVec;
use floor::order::choke_rises;
use floor::tables::Neighbours;
use job::held::Choke;
use job::state::{Call, Job};
use model::Limits;

fn in_order(chokes: &[Choke]) -> bool
    ensures { Decides result (ChokesInOrder (as_chokes chokes.now)) }
{
    for pair in chokes.windows(2) {
        if !choke_rises(&pair[0], &pair[1]) {
            return false;
        }
    }
    true
}

// The choke points that are cells.
fn points(chokes: &[Choke]) -> ArrayVec<Point, { Limits::CALLS }>
    requires { length chokes.now ≤ max_calls }
    ensures { result.items ≡ points_in chokes.now }
{
    let mut points = ArrayVec::new();
    for choke in chokes {
        if let Choke::Cell { step, cell } = *choke {
            points.push(Point { step, cell });
        }
    }
    points
}

// Whether a cart meets a call up to the step `last` without having stood on a choke point. A lift's cell that was in the layer before would have ended this then: so only
// the cells that a step has added are looked at.
fn reaches(
    neighbours: &Neighbours,
    meetings: &Meetings,
    calls: &[Call],
    carts: &[u8],
    points: &[Point],
    last: u16,
) -> bool
    requires { (last < max_steps) × (length calls.now ≤ max_calls) × (length points.now ≤ max_calls) × Climbs points.now × OneFloor neighbours.now carts.now points.now × Closing calls.now meetings.now.shut × Chained calls.now (length calls.now) meetings.now.bays }
    ensures { Decides result (SomeMet (MetBy meetings.now.due calls.now) last (Reached neighbours.now meetings.now.shut carts.now points.now)) }
{
    let mut layer = Reach::new();
    layer.spread(carts, &meetings.shut, 0);
    layer.close(points, 0);
    for t in 0..=last {
        if meetings.has_lift(&layer, t) || meetings.bays.has_bay(calls, &layer, t) {
            return true;
        }
        layer.grow(neighbours, &meetings.shut, points, t + 1);
        layer.close(points, usize::from(t) + 1);
    }
    false
}

// In a frame of its own, as the judge of plans.
#[inline(never)]
pub fn is_choke_list(job: &Job, chokes: &[Choke]) -> bool
    requires { Ready (job_of job.now) × (length chokes.now < length job.now.calls.items) × ((x : choke.Choke) → In x (as_chokes chokes.now) → KnownChoke (job_of job.now) x) }
    ensures { Decides result (RightChokes (job_of job.now) (as_chokes chokes.now)) }
{
    if !in_order(chokes) {
        return false;
    }
    let calls = job.calls.as_slice();
    let neighbours = Neighbours::of(job.tracks.as_slice(), job.cells);
    let meetings = Meetings::of(calls, chokes);
    let points = points(chokes);
    let last = job.last_step() as u16;
    !reaches(
        &neighbours,
        &meetings,
        calls,
        job.carts.as_slice(),
        points.as_slice(),
        last,
    )
}
