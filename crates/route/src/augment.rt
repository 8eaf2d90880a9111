// Lays the way on the search's stack into the flow, hop by hop from its top down, and takes its marks away: it stays open to later searches.
ghost use Rattle.std.specs.Prelude.{◌≡◌, ◌<◌};
ghost use Rattle.model.specs.Job as model;
ghost use Rattle.network.specs.Store.{as_point, byte_of, grid_of, SameStore, Stored};
ghost use Rattle.route.specs.Stack.{pos_at};
ghost use Rattle.route.specs.Search.{Laying, Augmented};
ghost use Rattle.route.specs.Lay.{Layable, laid, use_of, from_of};

use network::planes::{Grid, Node, Store, Use};

// What becomes of the node `by` way of which a hop leaves `from`: it falls out of the flow where it is that node, else it is where a call is met, or leads on.
fn use_of(grid: Grid, from: Node, by: Node) -> Use
    ensures { byte_of result ≡ use_of grid (as_point from) (as_point by) }
{
    if from == by {
        Use::Free
    } else if from.step == grid.top {
        Use::Meets
    } else {
        Use::Leads
    }
}

// What is kept of where `from` comes from: of a call the step, of a node the cell.
fn from_of(grid: Grid, from: Node, by: Node) -> usize
    ensures { result ≡ from_of grid (as_point from) (as_point by) }
{
    if from.step == grid.top {
        by.step
    } else {
        by.cell
    }
}

// The i-th hop.
fn lay(store: &mut Store<'_>, i: usize)
    requires { Layable store.old.grid store.old.bytes.now i }
    ensures { Stored store.old store.new (laid store.old.grid store.old.bytes.now i) }
{
    let grid = store.grid;
    let from = store.position(i);
    let to = store.position(i + 1);
    let by = store.via(i + 1);
    let u = grid.place(by);
    store.set_next(u, from.cell);
    store.set_prev(grid.place(from), from_of(grid, from, by));
    store.set_used(u, use_of(grid, from, by));
    store.set_mark(grid.place(to), 0);
}

pub fn augment(store: &mut Store<'_>, depth: usize)
    requires { (j : model.Job) × Laying j store.old.bytes.now store.old.grid depth }
    ensures same { SameStore store.old store.new }
    ensures laid { (j : model.Job) → Laying j store.old.bytes.now store.old.grid depth → Augmented j store.old.bytes.now store.new.bytes.now (pos_at (grid_of j) store.old.bytes.now 0) }
{
    let first = store.position(0);
    for i in (0..depth - 1).rev() {
        lay(store, i);
    }
    let v = store.grid.place(first);
    store.set_used(v, Use::Leads);
    store.set_mark(v, 0);
}
