// Whether a ride is a walk: by a table of the tracks, and one of the steps at which cells close.
ghost use Rattle.std.specs.Prelude.{◌≡◌, ◌<◌, ◌/◌, map, replicate};
ghost use Rattle.model.specs.Limits.{max_cells, max_steps};
ghost use Rattle.model.specs.Ready.{Ready};
ghost use Rattle.job.specs.Bits.{pairs_below};
ghost use Rattle.job.specs.Lists.{as_track, job_of};
ghost use Rattle.job.specs.Held.{as_ride, Decides};
ghost use Rattle.planjudge.specs.PlanTests.{IsFloor, CallsKnown, CartsKnown, Marks, Goes, Allowed, Walks, Led, AllLed, AllStay};

use floor::tables::bays;
use job::bits::{Bits, pair};
use job::held::Ride;
use job::state::{Call, Job, Track};
use model::Limits;

// The table has a bit for each two cells, a cell with itself too.
const PAIRS: usize = Limits::CELLS * (Limits::CELLS + 1) / 2;

const BYTES: usize = PAIRS / 8;

// What rides are judged by: the cells that a track joins, and for each cell the first step at which it is closed.
#[derive(Drop)]
pub struct Floor {
    joined: Bits<{ BYTES }>,
    shut: [u16; Limits::CELLS],
}

impl Floor {
    // Before anything is known: no track, and nothing open.
    pub fn new() -> Floor
        ensures { result.joined.bytes ≡ replicate (pairs_below max_cells / 8) 0 }
    {
        Floor {
            joined: Bits::new(),
            shut: [0; Limits::CELLS],
        }
    }

    // Marks the tracks.
    fn join(&mut self, tracks: &[Track])
        requires { self.old.joined.bytes ≡ replicate (pairs_below max_cells / 8) 0 }
        ensures { Marks (map as_track tracks.now) self.new.joined.bytes }
    {
        for track in tracks {
            self.joined
                .add(pair(usize::from(track.from), usize::from(track.to)));
        }
    }

    // Makes a new one that of a job. It is filled where it stands: one that is answered is copied four times, and the copies take 17 KB of the stack.
    pub fn fill(&mut self, job: &Job)
        requires { Ready (job_of job.now) × (self.old.joined.bytes ≡ replicate (pairs_below max_cells / 8) 0) }
        ensures { IsFloor (job_of job.now) self.new }
    {
        self.join(job.tracks.as_slice());
        self.shut = bays(job.calls.as_slice());
    }

    pub fn of(job: &Job) -> Floor
        requires { Ready (job_of job.now) }
        ensures { IsFloor (job_of job.now) result }
    {
        let mut floor = Floor::new();
        floor.fill(job);
        floor
    }

    // Whether a cart may go from u to v in a step.
    fn goes(&self, u: u8, v: u8) -> bool
        ensures { Decides result (Goes self.now u v) }
    {
        u == v || self.joined.has(pair(usize::from(u), usize::from(v)))
    }

    // Whether it may do so from the step t to the next: v must not be closed then.
    fn allowed(&self, t: usize, u: u8, v: u8) -> bool
        requires { t < max_steps }
        ensures { Decides result (Allowed self.now t u v) }
    {
        self.goes(u, v) && t + 1 < usize::from(self.shut[usize::from(v)])
    }

    // Whether a ride is a walk from the cell a.
    fn walks(&self, ride: &Ride, a: u8) -> bool
        ensures { Decides result (Walks self.now a (as_ride ride.now).cells) }
    {
        for t in 0..usize::from(ride.last) {
            if !self.allowed(t, ride.cells[t], ride.cells[t + 1]) {
                return false;
            }
        }
        ride.cells[0] == a
    }

    // Whether it is one that ends on the cell b.
    fn leads(&self, ride: &Ride, a: u8, b: u8) -> bool
        ensures { Decides result (Led self.now a b (as_ride ride.now).cells) }
    {
        ride.cells[usize::from(ride.last)] == b && self.walks(ride, a)
    }

    // Whether each path leads from its cart to its call.
    pub fn all_lead(&self, carts: &[u8], calls: &[Call], paths: &[Ride]) -> bool
        requires { CartsKnown carts.now paths.now × CallsKnown calls.now paths.now }
        ensures { Decides result (AllLed self.now carts.now calls.now paths.now) }
    {
        for path in paths {
            if !self.leads(
                path,
                carts[usize::from(path.cart)],
                calls[usize::from(path.call)].cell,
            ) {
                return false;
            }
        }
        true
    }

    // Whether each spare cart walks from its own cell.
    pub fn all_stay(&self, carts: &[u8], spares: &[Ride]) -> bool
        requires { CartsKnown carts.now spares.now }
        ensures { Decides result (AllStay self.now carts.now spares.now) }
    {
        for spare in spares {
            if !self.walks(spare, carts[usize::from(spare.cart)]) {
                return false;
            }
        }
        true
    }
}
