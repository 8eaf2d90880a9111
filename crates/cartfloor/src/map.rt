// The map reader: every refusal is decided before a byte is written.
ghost use Rattle.std.specs.Prelude.{◌≡◌, List, ℕ, ◌≤◌, ◌<◌, length, get_or};
ghost use Rattle.model.specs.Limits.{max_cells, max_side};
ghost use Rattle.model.specs.GridMap.{drawn, map_cells, floor_text};
ghost use Rattle.model.specs.Promises.{TextGiven, Mapped};
ghost use Rattle.gridmap.specs.CellPlaces.{max_places, CellsPlaced};

use gridmap::floor::{lines_length, put_lines};
use gridmap::read::{Rows, read_map};
use gridmap::tracks::find_tracks;
use model::Limits;
use model::answer::{Answer, packed};

// The floor with these rows, whose cells stand at these places.
fn write_floor(places: &[usize; Limits::CELLS], rows: Rows, text: &mut [u8]) -> u64
    requires { (rows.width ≤ max_side) × ((k : ℕ) → k < rows.cells → k < max_cells → get_or places.now k 0 ≤ max_places) }
    ensures { (m : List (List ℕ)) → rows.cells ≡ map_cells m → CellsPlaced m rows.width places.now → TextGiven (floor_text (length text.old) (drawn m)) text.old text.new result }
{
    let cells = rows.cells;
    if cells == 0 || Limits::CELLS < cells {
        return packed(Answer::NoFloor, 0);
    }
    let tracks = find_tracks(&places[..cells], rows.width + 1);
    let n = lines_length(cells, tracks.as_slice());
    if text.len() < n {
        return packed(Answer::SheetTooShort, 0);
    }
    put_lines(cells, tracks.as_slice(), text);
    256 * n as u64
}

pub fn cartfloor_map(map: &[u8], text: &mut [u8]) -> u64
    ensures { Mapped map.now text.old text.new result }
{
    let mut places = [0; Limits::CELLS];
    match read_map(map, &mut places) {
        Ok(rows) => write_floor(&places, rows, text),
        Err(bad) => packed(Answer::BadMap, bad.line as u64),
    }
}
