// A text and a place in it, from which its lines are read one after the other. The functions are thin and leave the work to `scan`, on a plain slice and
// a number.
ghost use Rattle.std.specs.Prelude.{◌≡◌, ◌+◌, ◌≤◌, ◌∷◌, ◌++◌, length, drop, MatchOption};
ghost use Rattle.model.specs.ReadJob.{is_empty};
ghost use Rattle.text.specs.Scan.{line_of};

use crate::scan;

#[derive(Clone, Copy)]
pub struct Lines<'a> {
    pub text: &'a [u8],
    pub at: usize,
    pub ghost inside: { at ≤ length text.now },
}

// Of the text, the bytes that are left say which lines come.
impl<'a> Lines<'a> {
    ghost use Rattle.text.specs.Rest.{rest_of};

    pub fn new(text: &'a [u8]) -> Self
        ensures { (result.text ≡ text.entry) × (result.at ≡ 0) }
    {
        Lines { text, at: 0 }
    }

    // Whether no byte is left.
    pub fn is_done(&self) -> bool
        ensures { result ≡ is_empty (rest_of self.now) }
    {
        self.text.len() <= self.at
    }

    // The next line without its line feed, and moves on behind that. Where no line feed ends the line there is none, and what is left stays.
    pub fn next(&mut self) -> Option<&'a [u8]>
        ensures said { MatchOption result ((line_of (rest_of self.old) ≡ rest_of self.old) × (self.new ≡ self.old)) (λ l. (l.now ≡ line_of (rest_of self.old)) × (rest_of self.old ≡ l.now ++ 10 ∷ rest_of self.new)) }
        ensures text { self.new.text ≡ self.old.text }
    {
        let line = scan::line(self.text, self.at)?;
        self.at += line.len() + 1;
        Some(line)
    }
}

// The position behind the next line and its line feed: past the end where it has none.
pub fn position<'a>(lines: Lines<'a>) -> usize
    ensures { result ≡ lines.entry.at + length (line_of (drop lines.entry.at lines.entry.text.now)) + 1 }
{
    scan::line_past(lines.text, lines.at)
}

// The next line, a part of the text without its line feed, by the position behind it.
pub fn line<'a>(lines: Lines<'a>, past: usize) -> &'a [u8]
    requires { past ≡ lines.at + length (line_of (drop lines.at lines.text.now)) + 1 }
    ensures { result.now ≡ line_of (drop lines.entry.at lines.entry.text.now) }
{
    scan::line_before(lines.text, lines.at, past)
}

// The line at a place, which moves on behind it. A line without a line feed leaves the place past the text's end.
pub fn next<'a, 'b>(text: &'a [u8], at: &'b mut usize) -> &'a [u8]
    requires { at.old ≤ length text.now }
    ensures { (result.now ≡ line_of (drop at.old text.now)) × (at.new ≡ at.old + length (line_of (drop at.old text.now)) + 1) }
{
    let lines = Lines { text, at: *at };
    let past = position(lines);
    *at = past;
    line(lines, past)
}
