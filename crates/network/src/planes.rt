// The store as the planner cuts it, in the one place that knows: planes of one byte a node, one after the other, and behind them those of the search's stack.
ghost use Rattle.std.specs.Prelude.{◌≡◌, ◌+◌, ◌*◌, ◌<◌, ◌≤◌, length, set};
ghost use Rattle.network.specs.Store.{place_in, as_point, at, spot, Within, Blank, Spacious, SameStore, Stored, byte_of, used_test, meets_test, used_at, mark_at, next_at, prev_at, cell_at, step_at, via_at, with_used, with_mark, with_next, with_prev, with_entry};

// The planes, by numbers, since a plane begins at its number times the nodes. The bytes of a node: what its use is, the stamp of a search, the cells before and behind it; of the stack: cell, step by two bytes, and by way of which
// cell at which step.
const USED: usize = 0;

const MARK: usize = 1;

const NEXT: usize = 2;

const PREV: usize = 3;

const CELL: usize = 4;

const STEP: usize = 5;

const OVER: usize = 6;

const VIA: usize = 7;

const VIA_STEP: usize = 8;

// What a node is to the flow: not used, or its cart goes on to the next cell, or meets the call on its own.
#[derive(Clone, Copy)]
pub enum Use {
    Free,
    Leads,
    Meets,
}

impl Use {
    // The byte that is kept of it.
    fn byte(self) -> u8
        ensures { result ≡ byte_of self }
    {
        match self {
            Use::Free => 0,
            Use::Leads => 1,
            Use::Meets => 2,
        }
    }
}

// A cell at a step, or a call, which is its cell in the layer of the calls.
#[derive(Clone, Copy, Debug, PartialEq, Eq)]
pub struct Node {
    pub cell: usize,
    pub step: usize,
}

// How many cells the floor has, the layer of the calls, which is the step behind the last, and how many nodes: each cell at each step and in that layer.
#[derive(Clone, Copy)]
pub struct Grid {
    pub cells: usize,
    pub top: usize,
    pub nodes: usize,
}

impl Grid {
    // Where the bytes of a node stand in each plane.
    pub fn place(self, node: Node) -> usize
        requires { place_in self node.cell node.step < self.nodes }
        ensures { result ≡ place_in self node.cell node.step }
    {
        node.step * self.cells + node.cell
    }
}

// The bytes that were lent, cut for a grid.
#[derive(Drop)]
pub struct Store<'a> {
    pub bytes: &'a mut [u8],
    pub grid: Grid,
}

impl<'a> Store<'a> {
    fn byte<const PLANE: usize>(&self, v: usize) -> u8
        requires { Within self.now.grid self.now.bytes.now v × (PLANE < 9) }
        ensures { result ≡ at self.now.grid self.now.bytes.now PLANE v }
    {
        self.bytes[PLANE * self.grid.nodes + v]
    }

    fn set_byte<const PLANE: usize>(&mut self, v: usize, b: u8)
        requires { Within self.old.grid self.old.bytes.now v × (PLANE < 9) }
        ensures { Stored self.old self.new (set self.old.bytes.now (spot self.old.grid PLANE v) b) }
    {
        self.bytes[PLANE * self.grid.nodes + v] = b;
    }

    // The byte that is kept of a node's use.
    pub fn use_byte(&self, v: usize) -> usize
        requires { Within self.now.grid self.now.bytes.now v }
        ensures { (result ≡ used_at self.now.grid self.now.bytes.now v) × (result < 256) }
    {
        usize::from(self.byte::<USED>(v))
    }

    // Whether the flow uses the node at v.
    pub fn used(&self, v: usize) -> bool
        requires { Within self.now.grid self.now.bytes.now v }
        ensures { result ≡ used_test self.now.grid self.now.bytes.now v }
    {
        self.use_byte(v) != 0
    }

    // Whether the cart on it meets the call on its cell.
    pub fn meets(&self, v: usize) -> bool
        requires { Within self.now.grid self.now.bytes.now v }
        ensures { result ≡ meets_test self.now.grid self.now.bytes.now v }
    {
        self.use_byte(v) == usize::from(Use::Meets.byte())
    }

    // The stamp of the last search that came there.
    pub fn mark(&self, v: usize) -> u8
        requires { Within self.now.grid self.now.bytes.now v }
        ensures { result ≡ mark_at self.now.grid self.now.bytes.now v }
    {
        self.byte::<MARK>(v)
    }

    // The cell that the cart of a used node goes on to.
    pub fn next(&self, v: usize) -> usize
        requires { Within self.now.grid self.now.bytes.now v }
        ensures { (result ≡ next_at self.now.grid self.now.bytes.now v) × (result < 256) }
    {
        usize::from(self.byte::<NEXT>(v))
    }

    // The cell that the cart of a used node came from; of a call that is met, the step.
    pub fn prev(&self, v: usize) -> usize
        requires { Within self.now.grid self.now.bytes.now v }
        ensures { (result ≡ prev_at self.now.grid self.now.bytes.now v) × (result < 256) }
    {
        usize::from(self.byte::<PREV>(v))
    }

    pub fn set_use_byte(&mut self, v: usize, b: u8)
        requires { Within self.old.grid self.old.bytes.now v }
        ensures { Stored self.old self.new (with_used self.old.grid self.old.bytes.now v b) }
    {
        self.set_byte::<USED>(v, b);
    }

    pub fn set_used(&mut self, v: usize, u: Use)
        requires { Within self.old.grid self.old.bytes.now v }
        ensures { Stored self.old self.new (with_used self.old.grid self.old.bytes.now v (byte_of u)) }
    {
        self.set_use_byte(v, u.byte());
    }

    pub fn set_mark(&mut self, v: usize, stamp: u8)
        requires { Within self.old.grid self.old.bytes.now v }
        ensures { Stored self.old self.new (with_mark self.old.grid self.old.bytes.now v stamp) }
    {
        self.set_byte::<MARK>(v, stamp);
    }

    pub fn set_next(&mut self, v: usize, cell: usize)
        requires { Within self.old.grid self.old.bytes.now v × (cell < 256) }
        ensures { Stored self.old self.new (with_next self.old.grid self.old.bytes.now v cell) }
    {
        self.set_byte::<NEXT>(v, cell as u8);
    }

    pub fn set_prev(&mut self, v: usize, cell: usize)
        requires { Within self.old.grid self.old.bytes.now v × (cell < 256) }
        ensures { Stored self.old self.new (with_prev self.old.grid self.old.bytes.now v cell) }
    {
        self.set_byte::<PREV>(v, cell as u8);
    }

    // The i-th position of the stack.
    pub fn position(&self, i: usize) -> Node
        requires { Within self.now.grid self.now.bytes.now i }
        ensures { (result.cell ≡ cell_at self.now.grid self.now.bytes.now i) × (result.step ≡ step_at self.now.grid self.now.bytes.now i) × (result.cell < 256) × (result.step < 65536) }
    {
        let cell = usize::from(self.byte::<CELL>(i));
        let low = usize::from(self.byte::<STEP>(i));
        let over = usize::from(self.byte::<OVER>(i));
        Node {
            cell,
            step: low + 256 * over,
        }
    }

    // The node by way of which it was reached.
    pub fn via(&self, i: usize) -> Node
        requires { Within self.now.grid self.now.bytes.now i }
        ensures { (as_point result ≡ via_at self.now.grid self.now.bytes.now i) × (result.cell < 256) × (result.step < 256) }
    {
        let cell = usize::from(self.byte::<VIA>(i));
        let step = usize::from(self.byte::<VIA_STEP>(i));
        Node { cell, step }
    }

    // Its step takes two bytes, since the layer of the calls can be the 256th.
    pub fn set_position(&mut self, i: usize, node: Node, via: Node)
        requires { Within self.old.grid self.old.bytes.now i × (node.cell < 256) × (node.step < 65536) × (via.cell < 256) × (via.step < 256) }
        ensures { Stored self.old self.new (with_entry self.old.grid self.old.bytes.now i (as_point node) (as_point via)) }
    {
        self.set_byte::<CELL>(i, node.cell as u8);
        self.set_byte::<STEP>(i, (node.step % 256) as u8);
        self.set_byte::<OVER>(i, (node.step / 256) as u8);
        self.set_byte::<VIA>(i, via.cell as u8);
        self.set_byte::<VIA_STEP>(i, via.step as u8);
    }

    // No node is used or marked then: the first two planes are cleared.
    pub fn wipe(&mut self)
        requires { Spacious self.old.grid self.old.bytes.now }
        ensures { SameStore self.old self.new × Blank self.new.grid self.new.bytes.now }
    {
        self.bytes[..NEXT * self.grid.nodes].fill(0);
    }
}
