// Reads examples on standard input and writes for each its label and what the reader answers: the number and line of a refusal, or "accepted".
// An example is a line of `%` and a label, and then the job, up to the next `%`.
#![tactic(auto)]

ghost use Rattle.std.specs.Prelude.{◌<◌, length, IfSome};

use report::input::read_full;
use std::io;
use std::io::Write;

#[derive(Clone, Copy)]
struct Example<'a> {
    label: &'a [u8],
    job: &'a [u8],
    rest: &'a [u8],
}

// The example that the text begins with, if its label's line ends, and what stands behind it.
fn first_of(text: &[u8]) -> Option<Example<'_>>
    ensures { IfSome result (λ e. length e.rest.now < length text.now) }
{
    let (_, text) = text.split_first()?;
    let label_end = text.iter().position(|b| *b == b'\n')?;
    let label = &text[..label_end];
    let text = &text[label_end + 1..];
    let end = text.iter().position(|b| *b == b'%').unwrap_or(text.len());
    Some(Example {
        label,
        job: &text[..end],
        rest: &text[end..],
    })
}

fn tell<W: Write>(out: &mut W, example: Example) -> io::Result<()> {
    out.write_all(example.label)?;
    match reader::read::read(example.job) {
        Ok(_) => out.write_all(b"\taccepted\n"),
        Err(refusal) => report::line(out, b"", u64::from(refusal.answer), refusal.line as u64),
    }
}

fn examples<W: Write>(out: &mut W, text: &[u8]) -> io::Result<()> {
    let mut rest = text;
    while let Some(first) = first_of(rest) {
        tell(out, first)?;
        rest = first.rest;
    }
    Ok(())
}

fn main(rt: HostRuntime) -> io::Result<()> {
    let mut input = [0u8; 131072];
    let n = read_full(&mut rt.stdin(), &mut input)?;
    examples(&mut rt.stdout(), &input[..n])
}
