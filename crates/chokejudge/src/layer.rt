// The cells that a cart can be on at a step without having stood on a choke point. A cart may stand, and none of the cells closes before a call is reached, so from one step to
// the next they stay but for its choke points, and only two kinds of cells can add to them: those added at the step before, and the choke points of the step before. shut[v] is
// the first step at which v is closed, and no cell is added from then on.
ghost use Rattle.std.specs.Prelude.{◌≡◌, ◌⊎◌, [], ℕ, ◌+◌, ◌<◌, ◌≤◌, length, get_or, replicate};
ghost use Rattle.model.specs.Limits.{max_cells, max_calls};
ghost use Rattle.model.specs.Lists.{In};
ghost use Rattle.job.specs.Held.{Decides};
ghost use Rattle.floor.specs.Tables.{OpenAt};
ghost use Rattle.chokejudge.specs.Members.{members};

use arrayvec::ArrayVec;
use floor::tables::Neighbours;
use model::Limits;
use std::marker::Model;

// No cell is added again before a choke point has taken it out.
const QUEUE: usize = Limits::CELLS + Limits::CALLS;

// A choke point that is a cell, with its step.
#[derive(Clone, Copy, Debug, Default, PartialEq, Eq)]
pub struct Point {
    pub step: u8,
    pub cell: u8,
}

// A layer with any number of points: whoever adds to it has to know of room in its queue.
#[derive(Drop)]
pub struct Reach {
    // One more than the step at which a cell was added, 0 where it is not in the layer. A number, not an Option: each cell of a row is asked, and two comparisons of one entry answer.
    since: [u16; Limits::CELLS],
    // The cells in the order in which they were added, those of the last step from `head` on.
    queue: ArrayVec<u8, QUEUE>,
    head: usize,
    // How many points were taken out, those of the last step from `opens` on.
    opens: usize,
    closed: usize,
    ghost added: { head ≤ length queue.items },
    ghost last: { opens ≤ closed },
}

fn is_open(shut: &[u16; Limits::CELLS], v: u8, t: u16) -> bool
    ensures { Decides result (OpenAt shut.now t v) }
{
    t < shut[usize::from(v)]
}

impl Reach {
    ghost use Rattle.floor.specs.Tables.{Rows};
    ghost use Rattle.chokejudge.specs.ChokeLayers.{Choked};
    ghost use Rattle.chokejudge.specs.Grown.{last_cells, last_points, Roomy, Older, Again, Onward, Grown, Gone};
    ghost use Rattle.chokejudge.specs.Points.{cells_of, Climbs, Cursor};

    // No cell is in it.
    pub fn new() -> Reach
        ensures { (result.since ≡ replicate max_cells 0) × (result.queue.items ≡ []) × (result.head ≡ 0) × (result.closed ≡ 0) }
    {
        Reach {
            since: [0; Limits::CELLS],
            queue: ArrayVec::new(),
            head: 0,
            opens: 0,
            closed: 0,
        }
    }

    pub fn has(&self, v: u8) -> bool
        ensures { Decides result (0 < get_or self.now.since v 0) }
    {
        0 < self.since[usize::from(v)]
    }

    // The cells that were added at the last step.
    pub fn last_cells(&self) -> &[u8]
        ensures { result.now ≡ last_cells self.now }
    {
        &self.queue.as_slice()[self.head..]
    }

    // Adds v where it is not in the layer, and is open at step t.
    fn add(&mut self, shut: &[u16; Limits::CELLS], v: u8, t: u16)
        requires { Roomy self.old }
        ensures { Grown shut.now t (λ x. x ≡ v) self.old self.new × (self.new.head ≡ self.old.head) }
    {
        if !self.has(v) && is_open(shut, v, t) {
            self.since[usize::from(v)] = t + 1;
            self.queue.push(v);
        }
    }

    // Adds the cells of a row.
    pub fn spread(&mut self, row: &[u8], shut: &[u16; Limits::CELLS], t: u16)
        requires { Roomy self.old }
        ensures { Grown shut.now t (λ x. In x row.now) self.old self.new × (self.new.head ≡ self.old.head) }
    {
        for &v in row {
            self.add(shut, v, t);
        }
    }

    // Whether v was in the layer before step t.
    fn is_older(&self, v: u8, t: u16) -> bool
        ensures { Decides result (Older self.now t v) }
    {
        let since = self.since[usize::from(v)];
        0 < since && since <= t
    }

    // Whether a row has a cell that was in the layer before step t.
    fn borders(&self, row: &[u8], t: u16) -> bool
        ensures { Decides result ((x : ℕ) × In x row.now × Older self.now t x) }
    {
        row.iter().any(|x| self.is_older(*x, t))
    }

    // Adds the cells of the points that an older cell leads to: they were choke points when it was spread from.
    fn rejoin(
        &mut self,
        neighbours: &Neighbours,
        shut: &[u16; Limits::CELLS],
        points: &[Point],
        t: u16,
    )
        requires { Roomy self.old × ((floor : ℕ) × Rows floor neighbours.now.near neighbours.now.begin × ((v : ℕ) → In v (cells_of points.now) → v < floor)) }
        ensures { Grown shut.now t (Again neighbours.now points.now self.old t) self.old self.new }
    {
        for point in points {
            if self.borders(neighbours.row(usize::from(point.cell)), t) {
                self.add(shut, point.cell, t);
            }
        }
    }

    // Adds what the older cells of the last step lead to. They are gone over by their places, since the queue grows meanwhile.
    fn advance(&mut self, neighbours: &Neighbours, shut: &[u16; Limits::CELLS], t: u16)
        requires { Roomy self.old × ((floor : ℕ) × Rows floor neighbours.now.near neighbours.now.begin × ((v : ℕ) → Older self.old t v → v < floor)) }
        ensures { Grown shut.now t (Onward neighbours.now self.old t) self.old self.new }
    {
        for i in self.head..self.queue.len() {
            let u = self.queue[i];
            if self.is_older(u, t) {
                self.spread(neighbours.row(usize::from(u)), shut, t);
            }
        }
    }

    // The layer of step t but for its choke points.
    pub fn grow(
        &mut self,
        neighbours: &Neighbours,
        shut: &[u16; Limits::CELLS],
        points: &[Point],
        t: u16,
    )
        requires { Roomy self.old × (self.old.closed ≤ length points.now) × ((floor : ℕ) × Rows floor neighbours.now.near neighbours.now.begin × ((v : ℕ) → In v (cells_of (last_points points.now self.old)) → v < floor) × ((v : ℕ) → Older self.old t v → v < floor)) }
        ensures { Grown shut.now t (λ v. Onward neighbours.now self.old t v ⊎ Again neighbours.now (last_points points.now self.old) self.old t v) self.old self.new × (self.new.head ≡ length self.old.queue.items) }
    {
        let tail = self.queue.len();
        let last = &points[self.opens..self.closed];
        self.advance(neighbours, shut, t);
        self.rejoin(neighbours, shut, last, t);
        self.head = tail;
    }

    // Takes the choke points of step t out.
    pub fn close(&mut self, points: &[Point], t: usize)
        requires { Climbs points.now × Cursor points.now t self.old.closed }
        ensures { Gone points.now t self.old self.new }
    {
        self.opens = self.closed;
        for point in &points[self.closed..] {
            if usize::from(point.step) != t {
                break;
            }
            self.since[usize::from(point.cell)] = 0;
            self.closed += 1;
        }
    }
}

// A layer from which no more points are taken out than a job can have calls, so that its queue always has room: `close` asks for few points, and no caller for room.
#[derive(Drop)]
pub struct Layer {
    pub reach: Reach,
    ghost few: { reach.closed ≤ max_calls },
    ghost room: { length reach.queue.items ≤ members reach.since + reach.closed },
}

// A contract sees the reach.
impl Model for Layer {
    ghost use Rattle.chokejudge.specs.declared.layer.Reach.{Reach};

    ghost Value = { Reach };

    ghost view = { λ l. l.reach };
}

impl Layer {
    ghost use Rattle.floor.specs.Tables.{Rows};
    ghost use Rattle.chokejudge.specs.Grown.{last_cells, last_points, Older, Again, Onward, Grown, Gone};
    ghost use Rattle.chokejudge.specs.Points.{cells_of, Climbs, Cursor};

    // No cell is in it.
    pub fn new() -> Layer
        ensures { (result.since ≡ replicate max_cells 0) × (result.queue.items ≡ []) × (result.head ≡ 0) × (result.closed ≡ 0) }
    {
        Layer {
            reach: Reach::new(),
        }
    }

    pub fn has(&self, v: u8) -> bool
        ensures { Decides result (0 < get_or self.now.since v 0) }
    {
        self.reach.has(v)
    }

    // The cells that were added at the last step.
    pub fn last_cells(&self) -> &[u8]
        ensures { result.now ≡ last_cells self.now }
    {
        self.reach.last_cells()
    }

    // Adds the cells of a row.
    pub fn spread(&mut self, row: &[u8], shut: &[u16; Limits::CELLS], t: u16)
        ensures { Grown shut.now t (λ x. In x row.now) self.old self.new × (self.new.head ≡ self.old.head) }
    {
        self.reach.spread(row, shut, t);
    }

    // The layer of step t but for its choke points.
    pub fn grow(
        &mut self,
        neighbours: &Neighbours,
        shut: &[u16; Limits::CELLS],
        points: &[Point],
        t: u16,
    )
        requires { (self.old.closed ≤ length points.now) × ((floor : ℕ) × Rows floor neighbours.now.near neighbours.now.begin × ((v : ℕ) → In v (cells_of points.now) → v < floor) × ((v : ℕ) → Older self.old t v → v < floor)) }
        ensures { Grown shut.now t (λ v. Onward neighbours.now self.old t v ⊎ Again neighbours.now (last_points points.now self.old) self.old t v) self.old self.new × (self.new.head ≡ length self.old.queue.items) }
    {
        self.reach.grow(neighbours, shut, points, t);
    }

    // Takes the choke points of step t out.
    pub fn close(&mut self, points: &[Point], t: u16)
        requires { Climbs points.now × (length points.now ≤ max_calls) × Cursor points.now t self.old.closed }
        ensures { Gone points.now t self.old self.new }
    {
        self.reach.close(points, usize::from(t));
    }
}
