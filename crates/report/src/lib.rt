// Lines that the programs write: a word and two numbers, their digits from the table.
#![tactic(auto)]

ghost use Rattle.std.specs.Prelude.{◌<◌, ◌≤◌, length};

pub mod input;

use std::io;
use std::io::Write;
use text::put::Pen;

pub fn line<W: Write>(out: &mut W, word: &[u8], a: u64, b: u64) -> io::Result<()>
    requires { (length word.now ≤ 7) × (a < 1000) × (b < 1000) }
{
    let mut text = [0u8; 16];
    let mut pen = Pen::new(&mut text);
    pen.pair_line(word, a as usize, b as usize);
    let n = pen.at;
    out.write_all(&text[..n])
}

// Where a program refuses: the number and the line of the refusal.
pub fn refused<W: Write>(out: &mut W, number: u64, line: u64) -> io::Result<()>
    requires { (number < 1000) × (line < 1000) }
{
    self::line(out, b"REFUSED", number, line)
}
