// A guess that only saves time: over the floor alone, along a shortest way from a call's cell to a free cart, where to look first.
#![tactic(auto)]

ghost use Rattle.std.specs.Prelude.{◌<◌, ◌≤◌, length, IfSome};
ghost use Rattle.model.specs.Limits.{max_cells};
ghost use Rattle.floor.specs.Tables.{Cells, Rows};
ghost use Rattle.network.specs.Store.{Spacious, Within};

use arrayvec::ArrayVec;
use floor::tables::Tables;
use model::Limits;
use network::planes::Store;

// The cells that were reached from the call's, in their order; of each, the cell that it was reached from, and its place in that cell's row.
#[derive(Drop)]
struct Outward {
    queue: ArrayVec<u8, { Limits::CELLS }>,
    seen: [bool; Limits::CELLS],
    to: [u8; Limits::CELLS],
    place: [u8; Limits::CELLS],
}

// Whether a cart stands on the cell at step 0, where a node's place is its cell, that no call has yet.
fn is_free(cart_on: &[u8; Limits::CELLS], store: &Store<'_>, c: usize) -> bool
    requires { (c < max_cells) × Within store.now.grid store.now.bytes.now c }
{
    cart_on[c] != 0 && !store.used(c)
}

impl Outward {
    fn from(cell: u8) -> Outward
        ensures { (n : _) → cell < n → Cells n result.queue.items }
    {
        let mut queue = ArrayVec::new();
        queue.push(cell);
        let mut seen = [false; Limits::CELLS];
        seen[usize::from(cell)] = true;
        Outward {
            queue,
            seen,
            to: [0; Limits::CELLS],
            place: [0; Limits::CELLS],
        }
    }

    // Adds the cells of c's row that were not reached yet, up to the first free cart, which is the answer. There are never more than the floor has cells: the test of the queue only
    // says so to the proof.
    fn expand(
        &mut self,
        row: &[u8],
        c: u8,
        cart_on: &[u8; Limits::CELLS],
        store: &Store<'_>,
    ) -> Option<usize>
        requires { Cells store.now.grid.cells row.now × (length row.now ≤ max_cells) × (store.now.grid.cells ≤ max_cells) × Spacious store.now.grid store.now.bytes.now × (store.now.grid.cells ≤ store.now.grid.nodes) × Cells store.now.grid.cells self.old.queue.items }
        ensures { Cells store.now.grid.cells self.new.queue.items × IfSome result (λ x. x < max_cells) }
    {
        for (i, &b) in row.iter().enumerate() {
            let x = usize::from(b);
            if !self.seen[x] && !self.queue.is_full() {
                self.seen[x] = true;
                self.to[x] = c;
                self.place[x] = i as u8;
                self.queue.push(b);
                if is_free(cart_on, store, x) {
                    return Some(x);
                }
            }
        }
        None
    }

    // From a cart's cell to the call's: each cell on the way is told where to come from. Answers how many steps the way has: no more than the floor has cells.
    fn trace(&self, hint: &mut [u8; Limits::CELLS], cells: usize, cart: usize, cell: usize) -> usize
        requires { cart < max_cells }
        ensures { result ≤ cells }
    {
        let mut x = cart;
        for i in 0..cells {
            if x == cell {
                return i;
            }
            let next = usize::from(self.to[x]);
            hint[next] = self.place[x];
            x = next;
        }
        cells
    }
}

// hint[c] is the place in row c of the cell to come from. Answers how many steps the way has, if there is one. Nothing rests on what these are.
pub fn aim(
    tables: &Tables,
    store: &Store<'_>,
    cell: usize,
    hint: &mut [u8; Limits::CELLS],
) -> Option<usize>
    requires { Rows store.now.grid.cells tables.now.near.near tables.now.near.begin × (store.now.grid.cells ≤ max_cells) × Spacious store.now.grid store.now.bytes.now × (store.now.grid.cells ≤ store.now.grid.nodes) × (cell < store.now.grid.cells) }
    ensures { IfSome result (λ n. n ≤ max_cells) }
{
    let cart_on = &tables.cart_on;
    if is_free(cart_on, store, cell) {
        hint[cell] = 0;
        return Some(0);
    }
    let mut reached = Outward::from(cell as u8);
    let mut head = 0;
    while head < reached.queue.len() {
        let c = reached.queue.as_slice()[head];
        let row = tables.near.row(usize::from(c));
        if let Some(cart) = reached.expand(row, c, cart_on, store) {
            hint[cart] = 0;
            return Some(reached.trace(hint, store.grid.cells, cart, cell));
        }
        head += 1;
    }
    None
}
