// One call: served by a search, or found impossible to serve along with those before it.
ghost use Rattle.model.specs.Job as model;
ghost use Rattle.network.specs.Store.{as_point, SameStore};
ghost use Rattle.network.specs.Holds.{Holds};
ghost use Rattle.route.specs.Search.{Searching};
ghost use Rattle.route.specs.Serve.{Sought, Serving, ServedBy};

use crate::{augment, search};
use floor::tables::Tables;
use model::Limits;
use network::planes::{Node, Store};

// The call cannot be served along with those before it: the marks that have the stamp show why.
#[derive(Clone, Copy, Debug, PartialEq, Eq)]
pub struct Unserved {
    pub stamp: u8,
}

// Searches, and lays the way that is found. Whether there was one.
fn seek(
    tables: &Tables,
    hint: &[u8; Limits::CELLS],
    store: &mut Store<'_>,
    node: Node,
    soon: usize,
    stamp: u8,
) -> bool
    requires { (j : model.Job) × Searching j tables.now store.old.bytes.now store.old.grid (as_point node) }
    ensures same { SameStore store.old store.new }
    ensures sought { (j : model.Job) → Searching j tables.now store.old.bytes.now store.old.grid (as_point node) → Sought j store.old.grid store.old.bytes.now store.new.bytes.now stamp (as_point node) result }
{
    let found = search::search(tables, hint, store, node, soon, stamp);
    let Some(depth) = found else {
        return false;
    };
    augment::augment(store, depth);
    true
}

// Answers the stamp of the last search.
// Marks are kept from search to search, since what they rule out seldom comes back. Only a search on fresh marks is final: one that fails on old
// ones is made again with a new stamp.
pub fn serve(
    tables: &Tables,
    hint: &[u8; Limits::CELLS],
    store: &mut Store<'_>,
    node: Node,
    soon: usize,
    stamp: u8,
    fresh: bool,
) -> Result<u8, Unserved>
    requires { (j : model.Job) × Serving j tables.now store.old.bytes.now store.old.grid (as_point node) stamp fresh }
    ensures same { SameStore store.old store.new }
    ensures served { (j : model.Job) → Serving j tables.now store.old.bytes.now store.old.grid (as_point node) stamp fresh → Holds j store.old.grid store.new.bytes.now × ServedBy j store.old.bytes.now store.new.bytes.now stamp (as_point node) result }
{
    if seek(tables, hint, store, node, soon, stamp) {
        return Ok(stamp);
    }
    if fresh {
        return Err(Unserved { stamp });
    }
    let again = stamp + 1;
    if seek(tables, hint, store, node, soon, again) {
        return Ok(again);
    }
    Err(Unserved { stamp: again })
}
