// When the calls are met: up to when the lift on a cell takes a cart, and which bays have a step as theirs, so that a step looks at its own bays only.
ghost use Rattle.std.specs.Prelude.{◌≡◌, ℕ, ◌<◌, ◌≤◌, length, get_or};
ghost use Rattle.model.specs.Limits.{max_cells, max_calls, max_steps};
ghost use Rattle.model.specs.Job.{lift};
ghost use Rattle.model.specs.Lists.{In};
ghost use Rattle.job.specs.Held.{Some, Decides};
ghost use Rattle.job.specs.Lists.{as_kind, kinds_of, cells_of, deadlines_of};
ghost use Rattle.floor.specs.Made.{Differ, Filled, never, closes_at};
ghost use Rattle.chokejudge.specs.ChokeLayers.{BayAt};
ghost use Rattle.chokejudge.specs.Grown.{last_cells, Cleared};
ghost use Rattle.chokejudge.specs.Lifts.{lifted_to, WholeOn, Lifts, LiftedAt};
ghost use Rattle.chokejudge.specs.Chains.{Chained, Keyed};

use crate::layer::Reach;
use job::held::Choke;
use job::state::{Call, CallKind};
use model::Limits;

// The cell of call k, 0 where there is none.
fn cell_of(calls: &[Call], k: u8) -> u8
    ensures { result ≡ get_or (cells_of calls.now) k 0 }
{
    match calls.get(usize::from(k)) {
        Some(call) => call.cell,
        None => 0,
    }
}

// The bays of each step as a chain: the last of them, and before each the one before it.
#[derive(Drop)]
pub struct Chains {
    latest: [Option<u8>; Limits::STEPS],
    before: [Option<u8>; Limits::CALLS],
}

impl Chains {
    pub fn of(calls: &[Call]) -> Chains
        requires { length calls.now ≤ max_calls }
        ensures { Chained calls.now (length calls.now) result }
    {
        let mut chains = Chains {
            latest: [None; Limits::STEPS],
            before: [None; Limits::CALLS],
        };
        for (k, call) in calls.iter().enumerate() {
            if call.kind == CallKind::Bay {
                let t = usize::from(call.deadline);
                chains.before[k] = chains.latest[t];
                chains.latest[t] = Some(k as u8);
            }
        }
        chains
    }

    // Whether a bay whose step is t has its cell in the layer.
    pub fn has_bay(&self, calls: &[Call], layer: &Reach, t: u16) -> bool
        requires { (t < max_steps) × (length calls.now ≤ max_calls) × Chained calls.now (length calls.now) self.now }
        ensures { Decides result (Some (length calls.now) (λ k. BayAt calls.now t k × (0 < get_or layer.now.since (get_or (cells_of calls.now) k 0) 0))) }
    {
        let mut next = self.latest[usize::from(t)];
        while let Some(k) = next {
            if layer.has(cell_of(calls, k)) {
                return true;
            }
            next = self.before[usize::from(k)];
        }
        false
    }
}

// Whether a lift takes a cart at the step before `next` from one of the cells that a queue has from `head` to before `tail`, by any tables.
pub fn has_lift(
    due: &[u16],
    since: &[u16],
    queue: &[u8],
    head: usize,
    tail: usize,
    next: u16,
) -> bool
    requires { (length due.now ≡ max_cells) × (length since.now ≡ max_cells) × (tail ≤ length queue.now) }
    ensures { Decides result ((i : ℕ) × (head ≤ i) × (i < tail) × LiftedAt due.now since.now next (get_or queue.now i 0)) }
{
    for i in head..tail {
        let v = usize::from(queue[i]);
        if 0 < since[v] && next <= due[v] {
            return true;
        }
    }
    false
}

// The chains of the calls by any table: latest[t] is the last call whose cell has t in it, before[k] the one before call k with the same. A call with an entry past all steps is in
// none.
pub fn chain(
    targets: &[u8; Limits::CALLS],
    calls: usize,
    shut: &[u16],
    latest: &mut [Option<u8>],
    before: &mut [Option<u8>],
)
    requires { (calls ≤ max_calls) × (length shut.now ≡ max_cells) × (length latest.old ≡ never) × (length before.old ≡ max_calls) }
    ensures { Keyed (λ k. get_or shut.now (get_or targets.now k 0) 0) calls latest.new before.new }
{
    latest.fill(None);
    for k in 0..calls {
        let t = usize::from(shut[usize::from(targets[k])]);
        if t <= Limits::STEPS {
            before[k] = latest[t];
            latest[t] = Some(k as u8);
        }
    }
}

// Whether a call whose key is t has its cell in the table, by the chains of any keys.
pub fn has_bay(
    targets: &[u8; Limits::CALLS],
    latest: &[Option<u8>],
    before: &[Option<u8>],
    t: usize,
    since: &[u16],
) -> bool
    requires { (t < never) × (length since.now ≡ max_cells) × ((key : ℕ → ℕ) × (calls : ℕ) × (calls ≤ max_calls) × Keyed key calls latest.now before.now) }
    ensures { (key : ℕ → ℕ) → (calls : ℕ) → (calls ≤ max_calls) × Keyed key calls latest.now before.now → Decides result (Some calls (λ k. (key k ≡ t) × (0 < get_or since.now (get_or targets.now k 0) 0))) }
{
    let mut next = latest[t];
    while let Some(k) = next {
        if 0 < since[usize::from(targets[usize::from(k)])] {
            return true;
        }
        next = before[usize::from(k)];
    }
    false
}

// One more than the last step at which a call's cart is lifted; a bay lifts none.
fn lifted_to(call: &Call) -> u16
    ensures { result ≡ lifted_to (as_kind call.now.kind) call.now.deadline }
{
    match call.kind {
        CallKind::Lift => u16::from(call.deadline) + 1,
        CallKind::Bay => 0,
    }
}

// Takes the cells of the whole calls out: all walks that end there are stopped. A number of no call has cell 0.
fn pass_over(calls: &[Call], chokes: &[Choke], due: &mut [u16; Limits::CELLS])
    ensures { Cleared (WholeOn calls.now chokes.now) due.old due.new }
{
    for choke in chokes {
        if let Choke::Call { call } = *choke {
            due[usize::from(cell_of(calls, call))] = 0;
        }
    }
}

// The tables of the calls, without the whole calls of a choke list.
#[derive(Drop)]
pub struct Meetings {
    // The first step at which a cell is closed.
    pub shut: [u16; Limits::CELLS],
    // One more than the last step at which the lift on a cell takes a cart, 0 without a lift, and at a whole call: a walk may cross its cell still. A number, so that a step is in
    // time while it is below it: one comparison for each cell looked at.
    pub due: [u16; Limits::CELLS],
    pub bays: Chains,
}

impl Meetings {
    pub fn of(calls: &[Call], chokes: &[Choke]) -> Meetings
        requires { Differ (cells_of calls.now) (length calls.now) × (length calls.now ≤ max_calls) }
        ensures { Filled (cells_of calls.now) (λ k. closes_at (get_or (kinds_of calls.now) k lift) (get_or (deadlines_of calls.now) k 0)) never (length calls.now) result.shut × Lifts calls.now chokes.now result.due × Chained calls.now (length calls.now) result.bays }
    {
        let mut meetings = Meetings {
            shut: floor::tables::bays(calls),
            due: floor::tables::by_cell(calls, 0, lifted_to),
            bays: Chains::of(calls),
        };
        pass_over(calls, chokes, &mut meetings.due);
        meetings
    }

    // Whether the lift on v takes a cart at step t.
    fn takes(&self, v: u8, t: u16) -> bool
        ensures { Decides result (t < get_or self.now.due v 0) }
    {
        t < self.due[usize::from(v)]
    }

    // Whether a lift takes a cart at step t from one of the layer's cells that were added last.
    pub fn has_lift(&self, layer: &Reach, t: u16) -> bool
        ensures { Decides result ((v : ℕ) × In v (last_cells layer.now) × ((0 < get_or layer.now.since v 0) × (t < get_or self.now.due v 0))) }
    {
        layer
            .last_cells()
            .iter()
            .any(|v| layer.has(*v) && self.takes(*v, t))
    }
}
