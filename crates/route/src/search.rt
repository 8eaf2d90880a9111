// One search: from a call back in time to a free cart, depth first, with the way so far as a stack in the store.
ghost use Rattle.std.specs.Prelude.{◌≡◌, ◌<◌, ◌≤◌, length, get_or};
ghost use Rattle.model.specs.Limits.{max_cells};
ghost use Rattle.model.specs.Job as model;
ghost use Rattle.floor.specs.Tables.{Cells, Near, Shut, row_at};
ghost use Rattle.network.specs.Store.{Within, place_at, as_point, leads_to, SameStore, Stored};
ghost use Rattle.network.specs.Holds.{Holds};
ghost use Rattle.network.specs.Graph.{Inside};
ghost use Rattle.route.specs.Lay.{pushed};
ghost use Rattle.route.specs.Search.{Searching, Searched};
ghost use Rattle.route.specs.Finds.{Stands, By, ByRow, Down, FromNode, Stamped, Finds, Guesses, Tries, CallTries, Sees};

use floor::tables::Tables;
use model::Limits;
use network::planes::{Node, Store};

// Where a position leads: to another position, by way of a node.
#[derive(Clone, Copy)]
pub struct Hop {
    pub node: Node,
    pub via: Node,
}

// What a used node leads on to: the call on its cell, where that is met, else a cell at the next step.
fn successor(store: &Store<'_>, node: Node) -> Node
    requires { (j : model.Job) × Stands j store.now.grid store.now.bytes.now (as_point node) }
    ensures { as_point result ≡ leads_to store.now.grid store.now.bytes.now (as_point node) }
{
    let v = store.grid.place(node);
    if store.meets(v) {
        Node {
            cell: node.cell,
            step: store.grid.top,
        }
    } else {
        Node {
            cell: store.next(v),
            step: node.step + 1,
        }
    }
}

// To the successor of a used node, which then falls out of the flow, or whose place in it is taken over.
fn drop_out(store: &Store<'_>, node: Node, stamp: u8) -> Option<Hop>
    requires { (j : model.Job) × Stands j store.now.grid store.now.bytes.now (as_point node) }
    ensures { Finds (Down store.now.grid store.now.bytes.now (as_point node)) (Stamped store.now.grid store.now.bytes.now stamp) result }
{
    let v = store.grid.place(node);
    if !store.used(v) {
        return None;
    }
    let to = successor(store, node);
    if store.mark(store.grid.place(to)) == stamp {
        return None;
    }
    Some(Hop {
        node: to,
        via: node,
    })
}

// By way of a node: to it where it is free, else to its successor.
fn look(store: &Store<'_>, node: Node, stamp: u8) -> Option<Hop>
    requires { (j : model.Job) × Stands j store.now.grid store.now.bytes.now (as_point node) }
    ensures { Finds (By store.now.grid store.now.bytes.now (as_point node)) (Stamped store.now.grid store.now.bytes.now stamp) result }
{
    let v = store.grid.place(node);
    if store.used(v) {
        return drop_out(store, node, stamp);
    }
    if store.mark(v) == stamp {
        return None;
    }
    Some(Hop { node, via: node })
}

// By way of the first cell of the row that leads on. From a cell that is closed at the next step nothing comes.
fn scan(
    store: &Store<'_>,
    row: &[u8],
    shut: &[u16; Limits::CELLS],
    step: usize,
    stamp: u8,
) -> Option<Hop>
    requires { (j : model.Job) × Holds j store.now.grid store.now.bytes.now × Cells j.cells row.now × (step ≤ model.horizon j) }
    ensures { Finds (ByRow store.now.grid store.now.bytes.now shut.now row.now step) (Stamped store.now.grid store.now.bytes.now stamp) result }
{
    for &b in row {
        let cell = usize::from(b);
        if step + 1 < usize::from(shut[cell]) {
            if let Some(hop) = look(store, Node { cell, step }, stamp) {
                return Some(hop);
            }
        }
    }
    None
}

// By way of the cell that the hint names: a guess, which only saves time. It is small, so that the compiler puts it into the loop of the search.
fn guess(
    store: &Store<'_>,
    row: &[u8],
    shut: &[u16; Limits::CELLS],
    node: Node,
    hint: usize,
    stamp: u8,
) -> Option<Hop>
    requires { (j : model.Job) × Stands j store.now.grid store.now.bytes.now (as_point node) × Cells j.cells row.now }
    ensures { Guesses (FromNode store.now.grid store.now.bytes.now shut.now row.now (as_point node)) (Stamped store.now.grid store.now.bytes.now stamp) result }
{
    if node.step == 0 {
        return None;
    }
    let &b = row.get(hint)?;
    let cell = usize::from(b);
    if usize::from(shut[cell]) <= node.step {
        return None;
    }
    let step = node.step - 1;
    look(store, Node { cell, step }, stamp)
}

// Where the node leads: by way of a cell of its row, else to its successor.
fn find(
    store: &Store<'_>,
    row: &[u8],
    shut: &[u16; Limits::CELLS],
    node: Node,
    stamp: u8,
) -> Option<Hop>
    requires { (j : model.Job) × Stands j store.now.grid store.now.bytes.now (as_point node) × Cells j.cells row.now }
    ensures { Finds (FromNode store.now.grid store.now.bytes.now shut.now row.now (as_point node)) (Stamped store.now.grid store.now.bytes.now stamp) result }
{
    if 0 < node.step {
        if let Some(hop) = scan(store, row, shut, node.step - 1, stamp) {
            return Some(hop);
        }
    }
    drop_out(store, node, stamp)
}

// The same, with the hint tried first.
fn from_node(tables: &Tables, store: &Store<'_>, node: Node, hint: usize, stamp: u8) -> Option<Hop>
    requires { (j : model.Job) × Stands j store.now.grid store.now.bytes.now (as_point node) × Near j tables.now.near.near tables.now.near.begin × Shut j tables.now.shut }
    ensures { Finds (FromNode store.now.grid store.now.bytes.now tables.now.shut (row_at tables.now.near.near tables.now.near.begin tables.now.shut node.cell node.step) (as_point node)) (Stamped store.now.grid store.now.bytes.now stamp) result }
{
    let row = tables.near.row_at(&tables.shut, node.cell, node.step);
    if let Some(hop) = guess(store, row, &tables.shut, node, hint, stamp) {
        return Some(hop);
    }
    find(store, row, &tables.shut, node, stamp)
}

// By way of the latest of the steps of a cell, from `first` to before `past`, that leads on.
fn from_steps(store: &Store<'_>, cell: usize, first: usize, past: usize, stamp: u8) -> Option<Hop>
    requires { (j : model.Job) × Holds j store.now.grid store.now.bytes.now × (cell < j.cells) × (past ≤ store.now.grid.top) }
    ensures { Tries store.now.grid store.now.bytes.now cell first past (Stamped store.now.grid store.now.bytes.now stamp) result }
{
    for step in (first..past).rev() {
        if let Some(hop) = look(store, Node { cell, step }, stamp) {
            return Some(hop);
        }
    }
    None
}

// Where the call on a cell leads: by way of a step of the cell at which it can be met, the latest first. Those from `below` on were tried. Before all others comes `ahead`,
// if it is one of these: a guess, which only saves time.
fn from_call(
    tables: &Tables,
    store: &Store<'_>,
    cell: usize,
    below: usize,
    ahead: usize,
    stamp: u8,
) -> Option<Hop>
    requires { (j : model.Job) × Holds j store.now.grid store.now.bytes.now × Shut j tables.now.shut × (cell < j.cells) × (get_or tables.now.due cell 0 ≤ store.now.grid.top) }
    ensures { CallTries store.now.grid store.now.bytes.now tables.now.due tables.now.shut cell below ahead (Stamped store.now.grid store.now.bytes.now stamp) result }
{
    let due = usize::from(tables.due[cell]);
    let first = if tables.shut[cell] <= tables.due[cell] {
        due - 1
    } else {
        0
    };
    let past = due.min(below);
    if first <= ahead && ahead < past {
        if let Some(hop) = look(store, Node { cell, step: ahead }, stamp) {
            return Some(hop);
        }
    }
    from_steps(store, cell, first, past, stamp)
}

// Where the position leads. The compiler peels off the first turn of the search's loop, and would leave this a call in both places: jobs that take long searches took up to a tenth longer.
#[inline(always)]
fn leads(
    tables: &Tables,
    hint: &[u8; Limits::CELLS],
    store: &Store<'_>,
    node: Node,
    below: usize,
    ahead: usize,
    stamp: u8,
) -> Option<Hop>
    requires { (j : model.Job) × Holds j store.now.grid store.now.bytes.now × Inside j (as_point node) × Near j tables.now.near.near tables.now.near.begin × Shut j tables.now.shut × (get_or tables.now.due node.cell 0 ≤ store.now.grid.top) }
    ensures { Sees store.now.grid store.now.bytes.now tables.now (as_point node) below ahead stamp result }
{
    let c = node.cell;
    if node.step == store.grid.top {
        return from_call(tables, store, c, below, ahead, stamp);
    }
    from_node(tables, store, node, usize::from(hint[c]), stamp)
}

// Marks a node and puts it on the stack.
fn push(store: &mut Store<'_>, depth: usize, hop: Hop, stamp: u8)
    requires { Within store.old.grid store.old.bytes.now depth × (place_at store.old.grid (as_point hop.node) < store.old.grid.nodes) × (hop.node.cell < 256) × (hop.node.step < 65536) × (hop.via.cell < 256) × (hop.via.step < 256) }
    ensures { Stored store.old store.new (pushed store.old.grid store.old.bytes.now depth (as_point hop.node) (as_point hop.via) stamp) }
{
    store.set_mark(store.grid.place(hop.node), stamp);
    store.set_position(depth, hop.node, hop.via);
}

// Answers how deep the stack is that holds the way to a free cart, if there is one.
// A call on top of the stack again was left by way of one of its steps: it goes on below that one, but from its latest step where it may have been the guess `soon`, which the
// search begins with: a step at which the call's cart can be there without a detour, since a way from a late step is long, and stands most of the time.
pub fn search(
    tables: &Tables,
    hint: &[u8; Limits::CELLS],
    store: &mut Store<'_>,
    node: Node,
    soon: usize,
    stamp: u8,
) -> Option<usize>
    requires { (j : model.Job) × Searching j tables.now store.old.bytes.now store.old.grid (as_point node) }
    ensures same { SameStore store.old store.new }
    ensures searched { (j : model.Job) → Searching j tables.now store.old.bytes.now store.old.grid (as_point node) → Searched j store.old.bytes.now store.new.bytes.now stamp (as_point node) result }
{
    let end = store.grid.top;
    let via = Node { cell: 0, step: 0 };
    push(store, 0, Hop { node, via }, stamp);
    let mut depth = 1;
    let mut top = node;
    let mut below = end;
    let mut ahead = soon;
    while 0 < depth {
        let c = top.cell;
        if top.step == 0 && tables.cart_on[c] != 0 {
            return Some(depth);
        }
        let found = leads(tables, hint, store, top, below, ahead, stamp);
        ahead = end;
        let Some(hop) = found else {
            depth -= 1;
            if 0 < depth {
                let left = store.via(depth);
                below = left.step;
                if below == soon {
                    below = end;
                }
                top = store.position(depth - 1);
            }
            continue;
        };
        push(store, depth, hop, stamp);
        below = end;
        top = hop.node;
        depth += 1;
    }
    None
}
