// A map, read: its first bad line, or its cells and where each stands.
ghost use Rattle.std.specs.Prelude.{◌≡◌, [], ◌≤◌, length, drop, set};
ghost use Rattle.model.specs.Limits.{max_side};
ghost use Rattle.model.specs.Text.{lines_of};
ghost use Rattle.model.specs.FirstBad.{rest_says};
ghost use Rattle.model.specs.GridMap.{bad, drawn, row_line, read_map};
ghost use Rattle.gridmap.specs.CellPlaces.{max_places};
ghost use Rattle.gridmap.specs.Drawing.{Draws, RowRead};

use crate::head::{size_line, word_line};
use crate::letters::{cell, wall};
use model::Limits;
use text::Number;

// The longest map: lines of 12, 10, 9 and 4 bytes, and the rows with their line feeds.
pub const MOST: usize = 35 + Limits::SIDE * (Limits::SIDE + 1);

// The first bad line.
#[derive(Clone, Copy, Debug, PartialEq, Eq)]
pub struct BadLine {
    pub line: usize,
}

// How many letters a row has, and how many cells the map.
#[derive(Clone, Copy, Debug, PartialEq, Eq)]
pub struct Rows {
    pub width: usize,
    pub cells: usize,
}

// The place of cell n, noted if a floor can have that number.
fn note_place(n: usize, place: usize, places: &mut [usize; Limits::CELLS])
    ensures { places.new ≡ set places.old n place }
{
    if n < places.len() {
        places[n] = place;
    }
}

// The number of the next cell behind a row whose first letter stands at `first`, after so many cells, if it has no other letters. The place of each of its cells is noted under the
// cell's number.
fn read_row(
    row: &[u8],
    first: usize,
    cells: usize,
    places: &mut [usize; Limits::CELLS],
) -> Option<usize>
    requires { (length row.now ≤ max_side) × (first ≤ max_places) × (cells ≤ max_places) }
    ensures { RowRead row.now first cells places.old places.new result }
{
    let mut n = cells;
    for (c, &letter) in row.iter().enumerate() {
        if cell(letter) {
            note_place(n, first + c, places);
            n += 1;
        } else if !wall(letter) {
            return None;
        }
    }
    Some(n)
}

// The rows from `start` on. The first of them is line 5.
fn read_rows(
    map: &[u8],
    start: usize,
    height: usize,
    width: usize,
    places: &mut [usize; Limits::CELLS],
) -> Result<Rows, BadLine>
    requires { (start ≤ length map.now) × (height ≤ max_side) × (width ≤ max_side) }
    ensures { Draws (rest_says bad (row_line width) drawn [] height 5 (lines_of (drop start map.now))) places.new result }
{
    let mut p = start;
    let mut cells = 0;
    for r in 0..height {
        let bad = BadLine { line: r + 5 };
        let end = p + width;
        if map.len() <= end {
            return Err(bad);
        }
        let Some(n) = read_row(&map[p..end], p - start, cells, places) else {
            return Err(bad);
        };
        if map[end] != b'\n' {
            return Err(bad);
        }
        cells = n;
        p = end + 1;
    }
    if p < map.len() {
        return Err(BadLine { line: height + 5 });
    }
    Ok(Rows { width, cells })
}

// The place of each cell, counted from the first letter of the rows, goes into places under the cell's number.
pub fn read_map(map: &[u8], places: &mut [usize; Limits::CELLS]) -> Result<Rows, BadLine>
    ensures { Draws (read_map map.now) places.new result }
{
    if !word_line(map, 0, b"type octile") {
        return Err(BadLine { line: 1 });
    }
    let Some(
        Number {
            value: height,
            next: third,
        },
    ) = size_line(map, 12, b"height ")
    else {
        return Err(BadLine { line: 2 });
    };
    let Some(
        Number {
            value: width,
            next: fourth,
        },
    ) = size_line(map, third, b"width ")
    else {
        return Err(BadLine { line: 3 });
    };
    if !word_line(map, fourth, b"map") {
        return Err(BadLine { line: 4 });
    }
    read_rows(map, fourth + 4, height, width, places)
}
