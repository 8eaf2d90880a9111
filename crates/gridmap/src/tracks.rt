// The tracks of a map, found from the places of its cells: a place is counted row by row, a row and its line feed being `stride` long,
// so that the place to the right is one further and the place below a stride. No cell stands at a line feed.
ghost use Rattle.std.specs.Prelude.{◌≡◌, ◌&&◌, ◌++◌, ℕ, ◌+◌, ◌*◌, ◌≤◌, ◌<◌, cond, ltb, eqb, length, get_or, Some, None, IfSome};
ghost use Rattle.model.specs.Limits.{max_cells, max_tracks, max_side};
ghost use Rattle.arrayvec.specs.ArrayVec.{array_vec_len};
ghost use Rattle.gridmap.specs.CellPlaces.{max_places, PlaceReached, TracksNoted, TracksFound, track_by};

use arrayvec::ArrayVec;
use job::state::Track;
use model::Limits;

// Cell k, if it is one of the cells and stands at the place.
fn at_place(places: &[usize], k: usize, place: usize) -> Option<usize>
    ensures { result ≡ cond (ltb k (length places.now) && eqb (get_or places.now k 0) place) (Some k) None }
{
    if k < places.len() && places[k] == place {
        return Some(k);
    }
    None
}

// The first cell from j on that stands at the place or behind it, or none: the number of cells.
fn reach(places: &[usize], j: usize, place: usize) -> usize
    requires { j ≤ length places.now }
    ensures { PlaceReached places.now j (length places.now) place result }
{
    for i in j..places.len() {
        if place <= places[i] {
            return i;
        }
    }
    places.len()
}

// The track from cell a to cell b, if there is one.
fn note(tracks: &mut ArrayVec<Track, { Limits::TRACKS }>, a: usize, b: Option<usize>)
    requires { (a < max_cells) × IfSome b (λ n. n < max_cells) × (array_vec_len tracks.old < max_tracks) }
    ensures { TracksNoted 1 (track_by a b) tracks.old.items tracks.new.items }
{
    if let Some(b) = b {
        tracks.push(Track {
            from: a as u8,
            to: b as u8,
        });
    }
}

// The tracks of cell a, in this order.
fn note_cell(
    tracks: &mut ArrayVec<Track, { Limits::TRACKS }>,
    a: usize,
    right: Option<usize>,
    below: Option<usize>,
)
    requires { (a < max_cells) × IfSome right (λ n. n < max_cells) × IfSome below (λ n. n < max_cells) × (array_vec_len tracks.old + 1 < max_tracks) }
    ensures { TracksNoted 2 (track_by a right ++ track_by a below) tracks.old.items tracks.new.items }
{
    note(tracks, a, right);
    note(tracks, a, below);
}

// The tracks of the cells at these places, each cell in turn, to the right and then below.
pub fn find_tracks(places: &[usize], stride: usize) -> ArrayVec<Track, { Limits::TRACKS }>
    requires { (length places.now ≤ max_cells) × (stride ≤ max_side + 1) × ((k : ℕ) → k < length places.now → get_or places.now k 0 ≤ max_places) }
    ensures { TracksFound places.now stride result.items }
{
    let mut tracks = ArrayVec::new();
    let mut j = 0;
    for (k, &place) in places.iter().enumerate() {
        let right = at_place(places, k + 1, place + 1);
        j = reach(places, j, place + stride);
        let below = at_place(places, j, place + stride);
        note_cell(&mut tracks, k, right, below);
    }
    tracks
}
