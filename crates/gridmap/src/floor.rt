// A floor's FLOOR and TRACK lines, from its tracks.
ghost use Rattle.std.specs.Prelude.{◌≡◌, ◌+◌, ◌*◌, ◌≤◌, ◌<◌, length, map};
ghost use Rattle.model.specs.Limits.{max_tracks};
ghost use Rattle.model.specs.Text.{line, track_word};
ghost use Rattle.model.specs.GridMap.{floor_lines, track_numbers};
ghost use Rattle.job.specs.Lists.{as_track};
ghost use Rattle.text.specs.Wrote.{Wrote};

use job::state::Track;
use model::Limits;
use text::put;
use text::put::Pen;

// The longest text: a FLOOR line of 10 bytes, and for each cell at most two TRACK lines of 14.
pub const MOST: usize = 10 + 28 * Limits::CELLS;

// How many bytes a TRACK line has.
fn line_length(track: &Track) -> u16
    ensures { result ≡ length (line track_word (track_numbers (as_track track.now))) }
{
    (8 + put::digits(usize::from(track.from)) + put::digits(usize::from(track.to))) as u16
}

// How many bytes the lines have. Their sum is held in 16 bits, so that the processor adds eight lines at once.
pub fn lines_length(cells: usize, tracks: &[Track]) -> usize
    requires { length tracks.now ≤ max_tracks }
    ensures { (result ≡ length (floor_lines cells (map as_track tracks.now))) × (result ≤ 10 + 14 * length tracks.now) }
{
    let mut n = 0u16;
    for track in tracks {
        n += line_length(track);
    }
    7 + put::digits(cells) + usize::from(n)
}

pub fn put_lines(cells: usize, tracks: &[Track], out: &mut [u8]) -> usize
    requires { (cells < 1000) × (length (floor_lines cells (map as_track tracks.now)) ≤ length out.old) }
    ensures { Wrote out.old 0 (floor_lines cells (map as_track tracks.now)) out.new result }
{
    let mut pen = Pen::new(out);
    pen.head(b"FLOOR", cells);
    for track in tracks {
        let a = usize::from(track.from);
        let b = usize::from(track.to);
        pen.pair_line(b"TRACK", a, b);
    }
    pen.at
}
