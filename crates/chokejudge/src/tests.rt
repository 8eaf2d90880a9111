// A layer as one finds it by hand.
use crate::layer::{Layer, Point};
use floor::tables::Neighbours;
use job::state::Track;
use model::Limits;
use std::test::Fail;

fn holds(fact: bool, what: &'static str) -> Result<(), &'static str> {
    if fact { Ok(()) } else { Err(what) }
}

// Tracks from cell 0 to 1, 2 and 3, with carts on 0, 4 and 5. Cell 4 is closed from the first, cell 2 from step 1 on; 5 is a choke point at step 0, and 1 at
// step 1, so that a cart is there at step 2.
#[test]
fn a_layer_leaves_out_points_and_closed_cells() -> Result<(), Fail> {
    let tracks = [
        Track { from: 0, to: 1 },
        Track { from: 0, to: 2 },
        Track { from: 0, to: 3 },
    ];
    let neighbours = Neighbours::of(&tracks, Limits::CELLS);
    let points = [Point { step: 0, cell: 5 }, Point { step: 1, cell: 1 }];
    let mut shut = [1000; Limits::CELLS];
    shut[4] = 0;
    shut[2] = 1;
    let mut layer = Layer::new();
    holds(!layer.has(0), "no cell is in a new layer")?;
    layer.spread(&[0, 4, 5], &shut, 0);
    holds(layer.has(0) && !layer.has(4) && layer.has(5), "the carts")?;
    layer.close(&points, 0);
    holds(layer.has(0) && !layer.has(1) && !layer.has(5), "step 0")?;
    holds(
        layer.last_cells() == [0, 5].as_slice(),
        "what the carts added",
    )?;
    layer.grow(&neighbours, &shut, &points, 1);
    holds(layer.has(1) && !layer.has(2) && layer.has(3), "step 1")?;
    holds(layer.last_cells() == [1, 3].as_slice(), "what step 1 added")?;
    layer.close(&points, 1);
    holds(
        layer.has(0) && !layer.has(1) && layer.has(3),
        "step 1 without its point",
    )?;
    layer.grow(&neighbours, &shut, &points, 2);
    holds(layer.has(1) && !layer.has(2) && !layer.has(5), "step 2")?;
    holds(layer.last_cells() == [1].as_slice(), "what step 2 added")?;
    Ok(())
}
