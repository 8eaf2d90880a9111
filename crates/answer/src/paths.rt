// The paths of the plan: each followed from the step at which its call is met back to step 0.
ghost use Rattle.std.specs.Prelude.{◌≡◌, ◌<◌, ◌≤◌, length};
ghost use Rattle.model.specs.Job as model;
ghost use Rattle.network.specs.Store.{as_point};
ghost use Rattle.network.specs.Keeping.{KeepsAll};
ghost use Rattle.answer.specs.Full.{FullFlow, PathsTraced};
ghost use Rattle.answer.specs.Trail.{HasCart, CameFrom, Trail};

use job::held::Ride;
use job::state::Call;
use model::Limits;
use network::planes::{Node, Store};

// The cell that the cart on the node, at a step after 0, came from. Two carts that would trade places both stand instead.
fn came_from(store: &Store<'_>, node: Node) -> usize
    requires { ((j : model.Job) × KeepsAll j store.now.grid store.now.bytes.now × HasCart j store.now.bytes.now (as_point node)) × (0 < node.step) × (node.step < store.now.grid.top) }
    ensures { (j : model.Job) → KeepsAll j store.now.grid store.now.bytes.now → HasCart j store.now.bytes.now (as_point node) → CameFrom j store.now.bytes.now (as_point node) result }
{
    let cell = node.cell;
    let step = node.step;
    let from = store.prev(store.grid.place(node));
    let other = store.grid.place(Node { cell: from, step });
    if !store.used(other) {
        return from;
    }
    if store.prev(other) != cell {
        return from;
    }
    cell
}

// Follows the cart on the node back to step 0. Its cells go into the row, and the first of them is the answer.
fn follow(store: &Store<'_>, row: &mut [u8; Limits::STEPS], node: Node) -> usize
    requires { ((j : model.Job) × KeepsAll j store.now.grid store.now.bytes.now × HasCart j store.now.bytes.now (as_point node)) × (node.step < store.now.grid.top) }
    ensures { (j : model.Job) → KeepsAll j store.now.grid store.now.bytes.now → HasCart j store.now.bytes.now (as_point node) → Trail j store.now.bytes.now (as_point node) row.old row.new result }
{
    let cell = node.cell;
    let step = node.step;
    row[step] = cell as u8;
    if step == 0 {
        return cell;
    }
    let from = came_from(store, node);
    follow(
        store,
        row,
        Node {
            cell: from,
            step: step - 1,
        },
    )
}

// The path of the i-th call in the order goes into the i-th ride.
pub fn write_paths(
    calls: &[Call],
    cart_on: &[u8; Limits::CELLS],
    store: &Store<'_>,
    order: &[u8],
    rides: &mut [Ride],
)
    requires { ((j : model.Job) × FullFlow j calls.now cart_on.now order.now store.now.grid store.now.bytes.now) × (length calls.now ≤ length rides.old) }
    ensures { (j : model.Job) → FullFlow j calls.now cart_on.now order.now store.now.grid store.now.bytes.now → PathsTraced j order.now store.now.bytes.now rides.new (length calls.now) }
{
    for (i, call) in order.iter().enumerate() {
        let cell = usize::from(calls[usize::from(*call)].cell);
        let top = store.grid.top;
        let step = store.prev(store.grid.place(Node { cell, step: top }));
        let ride = &mut rides[i];
        let start = follow(store, &mut ride.cells, Node { cell, step });
        ride.cart = cart_on[start] - 1;
        ride.call = *call;
        ride.last = step as u8;
    }
}
