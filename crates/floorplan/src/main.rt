// Plans the job on standard input: writes the sheet, or one line that says why the job is refused.
#![tactic(auto)]

use model::Limits;
use model::answer::Answer;
use report::input::read_full;
use std::io;
use std::io::Write;

// The length of the store and of the sheet's buffer.
const LENT: usize = 65536;

fn plan<W: Write>(out: &mut W, text: &[u8]) -> io::Result<()> {
    let mut store = [0u8; LENT];
    let mut sheet = [0u8; LENT];
    let r = cartfloor::plan::cartfloor_plan(text, &mut store, &mut sheet);
    let value = r / 256;
    if u64::from(Answer::Cannot) < r % 256 {
        return report::refused(out, r % 256, value);
    }
    // A sheet is never longer than its buffer.
    if value <= LENT as u64 {
        let n = value as usize;
        out.write_all(&sheet[0..n])?;
    }
    Ok(())
}

// One byte more than a job text may have tells one that is too long.
fn main(rt: HostRuntime) -> io::Result<()> {
    let mut input = [0u8; Limits::TEXT + 1];
    let n = read_full(&mut rt.stdin(), &mut input)?;
    // Where nobody takes what it writes it ends all the same, and says nothing elsewhere.
    match plan(&mut rt.stdout(), &input[0..n]) {
        Ok(()) => Ok(()),
        Err(_) => Ok(()),
    }
}
