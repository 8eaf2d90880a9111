// The carts that no call gets are given lines in the flow too. No search is needed: each stands at every step, and if another was to come to its cell, that one stands on its own instead.
ghost use Rattle.std.specs.Prelude.{◌≡◌, ◌⊎◌, ℕ, suc, ◌+◌, ◌≤◌, ◌<◌, length};
ghost use Rattle.model.specs.Lists.{In};
ghost use Rattle.model.specs.Limits.{max_cells, max_steps};
ghost use Rattle.model.specs.Job as model;
ghost use Rattle.model.specs.Choke.{point};
ghost use Rattle.network.specs.Store.{place_in, used_at, Spacious, SameStore, Stored};
ghost use Rattle.network.specs.Keeping.{KeepsAll, LooseAt, SameStarts};
ghost use Rattle.network.specs.Holds.{Holds};
ghost use Rattle.answer.specs.Spares.{linked, StartsMore, Unkept, AllKept};

use network::planes::{Node, Store, Use};

// The cart on the cell at the step stands: the bytes of the two nodes say so.
fn link(store: &mut Store<'_>, cell: usize, step: usize)
    requires { Spacious store.old.grid store.old.bytes.now × (place_in store.old.grid cell step < store.old.grid.nodes) × (place_in store.old.grid cell (suc step) < store.old.grid.nodes) × (cell < max_cells) × (step < max_steps) }
    ensures { Stored store.old store.new (linked store.old.grid store.old.bytes.now cell step) }
{
    let grid = store.grid;
    let u = grid.place(Node { cell, step });
    let v = grid.place(Node {
        cell,
        step: step + 1,
    });
    store.set_next(u, cell);
    store.set_prev(v, cell);
}

// The cart whose line ends on the cell at the step stands. Whoever was to come there stands instead, and so on; answers the cell of the one that nobody was to come to.
fn stand(store: &mut Store<'_>, cell: usize, step: usize) -> usize
    requires { ((j : model.Job) × LooseAt j store.old.grid store.old.bytes.now (point cell step)) × (step + 1 < store.old.grid.top) }
    ensures { SameStore store.old store.new × ((j : model.Job) → LooseAt j store.old.grid store.old.bytes.now (point cell step) → LooseAt j store.old.grid store.new.bytes.now (point result (suc step)) × SameStarts j store.old.bytes.now store.new.bytes.now) }
{
    let grid = store.grid;
    let mut at = cell;
    let mut v = grid.place(Node {
        cell: at,
        step: step + 1,
    });
    while store.used(v) {
        let came = store.prev(v);
        link(store, at, step);
        at = came;
        v = grid.place(Node {
            cell: at,
            step: step + 1,
        });
    }
    link(store, at, step);
    store.set_used(v, Use::Leads);
    at
}

// Gives the cart on the cell, which no line uses yet, a line to the last step.
fn keep(store: &mut Store<'_>, cell: usize)
    requires { ((j : model.Job) × KeepsAll j store.old.grid store.old.bytes.now × In cell j.carts) × (used_at store.old.grid store.old.bytes.now (place_in store.old.grid cell 0) ≡ 0) }
    ensures { SameStore store.old store.new × ((j : model.Job) → KeepsAll j store.old.grid store.old.bytes.now → In cell j.carts → KeepsAll j store.old.grid store.new.bytes.now × StartsMore j store.old.bytes.now store.new.bytes.now cell) }
{
    let grid = store.grid;
    store.set_used(grid.place(Node { cell, step: 0 }), Use::Leads);
    let mut at = cell;
    for t in 0..grid.top - 1 {
        at = stand(store, at, t);
    }
}

// Gives each cart that no line uses one of its own. The carts are known by their cells.
pub fn keep_spares(carts: &[u8], store: &mut Store<'_>)
    requires { (j : model.Job) × Unkept j carts.now store.old.grid store.old.bytes.now }
    ensures { SameStore store.old store.new × ((j : model.Job) → Unkept j carts.now store.old.grid store.old.bytes.now → AllKept j store.old.grid store.new.bytes.now) }
{
    let grid = store.grid;
    for cart in carts {
        let cell = usize::from(*cart);
        if !store.used(grid.place(Node { cell, step: 0 })) {
            keep(store, cell);
        }
    }
}
