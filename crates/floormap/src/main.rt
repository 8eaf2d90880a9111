// Turns the grid map on standard input into a floor: writes its FLOOR and TRACK lines, or one line that says why the map is refused.
#![tactic(auto)]

use gridmap::{floor, read};
use report::input::read_full;
use std::io;
use std::io::Write;

fn write_floor<W: Write>(out: &mut W, map: &[u8]) -> io::Result<()> {
    let mut text = [0u8; floor::MOST];
    let r = cartfloor::map::cartfloor_map(map, &mut text);
    let value = r / 256;
    if 0 < r % 256 {
        return report::refused(out, r % 256, value);
    }
    // A text is never longer than its buffer.
    if value <= floor::MOST as u64 {
        let n = value as usize;
        out.write_all(&text[0..n])?;
    }
    Ok(())
}

// The first bytes of a text, one more than the longest map has, get the answer of the whole (model/proofs/MapPrefix.antt).
fn main(rt: HostRuntime) -> io::Result<()> {
    let mut input = [0u8; read::MOST + 1];
    let n = read_full(&mut rt.stdin(), &mut input)?;
    // Where nobody takes what it writes it ends all the same, and says nothing elsewhere.
    match write_floor(&mut rt.stdout(), &input[0..n]) {
        Ok(()) => Ok(()),
        Err(_) => Ok(()),
    }
}
