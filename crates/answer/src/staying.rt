// The walks of the carts that no call gets: each followed from its cell at step 0 on to the last step.
ghost use Rattle.std.specs.Prelude.{List, ℕ, ◌+◌, ◌<◌, length};
ghost use Rattle.model.specs.Limits.{max_carts};
ghost use Rattle.model.specs.Job as model;
ghost use Rattle.model.specs.Choke.{point};
ghost use Rattle.model.specs.Promises.{RightPlan};
ghost use Rattle.job.specs.Held.{paths_to, spares_from};
ghost use Rattle.network.specs.Store.{as_point};
ghost use Rattle.network.specs.Keeping.{KeepsAll};
ghost use Rattle.answer.specs.Full.{PathsWritten};
ghost use Rattle.answer.specs.Spares.{CartsTaken, cart_at};
ghost use Rattle.answer.specs.Trail.{MeetsNone, GoesTo, WalkRow};

use job::held::Ride;
use model::Limits;
use network::planes::{Node, Store};

// The cell that the cart on the node, at a step before the last, goes on to; most stand. Two that would trade places both stand instead.
fn goes_to(store: &Store<'_>, node: Node) -> usize
    requires { ((j : model.Job) × KeepsAll j store.now.grid store.now.bytes.now × MeetsNone j store.now.bytes.now (as_point node)) × (node.step + 1 < store.now.grid.top) }
    ensures { (j : model.Job) → KeepsAll j store.now.grid store.now.bytes.now → MeetsNone j store.now.bytes.now (as_point node) → GoesTo j store.now.bytes.now (as_point node) result }
{
    let cell = node.cell;
    let step = node.step + 1;
    let on = store.next(store.grid.place(node));
    if on == cell {
        return on;
    }
    let beside = store.grid.place(Node { cell, step });
    if !store.used(beside) {
        return on;
    }
    if store.prev(beside) != on {
        return on;
    }
    cell
}

// Follows the cart that starts on the cell. Its cells go into the row.
fn go_on(store: &Store<'_>, row: &mut [u8; Limits::STEPS], cell: usize)
    requires { (j : model.Job) × KeepsAll j store.now.grid store.now.bytes.now × MeetsNone j store.now.bytes.now (point cell 0) }
    ensures { (j : model.Job) → KeepsAll j store.now.grid store.now.bytes.now → MeetsNone j store.now.bytes.now (point cell 0) → WalkRow j store.now.bytes.now cell store.now.grid.top row.new }
{
    row[0] = cell as u8;
    let mut at = cell;
    for t in 0..store.grid.top - 1 {
        at = goes_to(store, Node { cell: at, step: t });
        row[t + 1] = at as u8;
    }
}

// Which carts have paths.
fn taken_by(paths: &[Ride]) -> [bool; Limits::CARTS]
    requires { (k : ℕ) → k < length paths.now → cart_at paths.now k < max_carts }
    ensures { CartsTaken paths.now result }
{
    let mut taken = [false; Limits::CARTS];
    for path in paths {
        taken[usize::from(path.cart)] = true;
    }
    taken
}

// Behind the paths, a ride for each cart that has none, by number. The carts are known by their cells.
pub fn write_spares(carts: &[u8], calls: usize, store: &Store<'_>, rides: &mut [Ride])
    requires { (j : model.Job) × (order : List ℕ) × PathsWritten j carts.now calls order store.now.grid store.now.bytes.now rides.old }
    ensures { (j : model.Job) (order : List ℕ) → PathsWritten j carts.now calls order store.now.grid store.now.bytes.now rides.old → RightPlan j (paths_to rides.new calls) (spares_from rides.new calls) }
{
    let taken = taken_by(&rides[..calls]);
    let last = (store.grid.top - 1) as u8;
    let mut k = calls;
    for (cart, cell) in carts.iter().enumerate() {
        if !taken[cart] {
            let ride = &mut rides[k];
            go_on(store, &mut ride.cells, usize::from(*cell));
            ride.cart = cart as u8;
            ride.last = last;
            k += 1;
        }
    }
}
