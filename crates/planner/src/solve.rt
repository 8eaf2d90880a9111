// The calls one after the other in the order of the sheet, each served by a search; then the paths, or the choke list.
ghost use Rattle.std.specs.Prelude.{◌≡◌, ◌≤◌, length};
ghost use Rattle.model.specs.Job.{store_least};
ghost use Rattle.model.specs.Ready.{Ready};
ghost use Rattle.job.specs.Lists.{job_of};
ghost use Rattle.network.specs.Holds.{Holds};
ghost use Rattle.network.specs.Store.{SameStore};
ghost use Rattle.planner.specs.Solved.{Begun, ServedAll, AllServed, PlanHeld, Solved};

use arrayvec::ArrayVec;
use floor::tables::Tables;
use job::held::{Choke, Ride};
use job::state::Job;
use model::Limits;
use network::planes::{Grid, Node, Store};
use route::serve::Unserved;

// A plan, which stands in the rides, or the choke points that show that there is none. Both are answers: neither is an error of the other.
#[derive(Drop)]
pub enum Solution {
    Plan,
    Cannot(ArrayVec<Choke, { Limits::CALLS }>),
}

// Serves the calls in their order, until one cannot be. No node is used or marked at the start.
fn serve_all(
    job: &Job,
    tables: &Tables,
    order: &[u8],
    store: &mut Store<'_>,
) -> Result<(), Unserved>
    requires { Begun (job_of job.now) tables.now order.now store.old.bytes.now store.old.grid }
    ensures { SameStore store.old store.new × Holds (job_of job.now) store.old.grid store.new.bytes.now × ServedAll (job_of job.now) store.new.bytes.now result }
{
    let calls = job.calls.as_slice();
    let mut hint = [0u8; Limits::CELLS];
    let mut stamp = 1;
    for (i, &q) in order.iter().enumerate() {
        let node = Node {
            cell: usize::from(calls[usize::from(q)].cell),
            step: store.grid.top,
        };
        let far = aim::aim(tables, store, node.cell, &mut hint).unwrap_or(0);
        stamp = route::serve::serve(tables, &hint, store, node, 2 * far, stamp, i == 0)?;
    }
    Ok(())
}

// Every call is served: the carts that are left are given lines too, and then paths and walks are read off the flow.
fn write_plan(
    job: &Job,
    cart_on: &[u8; Limits::CELLS],
    store: &mut Store<'_>,
    order: &[u8],
    rides: &mut [Ride],
)
    requires { AllServed (job_of job.now) cart_on.now order.now store.old.grid store.old.bytes.now × (length rides.old ≡ length (job_of job.now).carts) }
    ensures { SameStore store.old store.new × PlanHeld (job_of job.now) rides.new }
{
    answer::spares::keep_spares(job.carts.as_slice(), store);
    answer::paths::write_paths(job.calls.as_slice(), cart_on, store, order, rides);
    answer::staying::write_spares(job.carts.as_slice(), job.calls.len(), store, rides);
}

// A plan, whose paths and spare carts' rides stand in the order of the sheet, or a true choke list.
pub fn solve(job: &Job, store: &mut [u8], rides: &mut [Ride]) -> Solution
    requires { Ready (job_of job.now) × (store_least (job_of job.now) ≤ length store.old) × (length rides.old ≡ length (job_of job.now).carts) }
    ensures { (length store.new ≡ length store.old) × Solved (job_of job.now) result rides.new }
{
    let cells = job.cells;
    let top = job.last_step() + 1;
    let nodes = (top + 1) * cells;
    let grid = Grid { cells, top, nodes };
    let mut store = Store { bytes: store, grid };
    store.wipe();
    let order = floor::order::by_deadline(job.calls.as_slice());
    let mut tables = Tables::new();
    tables.fill(job);
    match serve_all(job, &tables, order.as_slice(), &mut store) {
        Ok(()) => {
            write_plan(job, &tables.cart_on, &mut store, order.as_slice(), rides);
            Solution::Plan
        }
        Err(unserved) => Solution::Cannot(answer::cut::list_chokes(
            job.calls.as_slice(),
            &store,
            unserved.stamp,
        )),
    }
}
