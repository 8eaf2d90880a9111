// Writing: bytes, words and numbers, one after the other, into a lent buffer.
ghost use Rattle.std.specs.Prelude.{◌≡◌, ◌+◌, ◌*◌, ◌<◌, ◌≤◌, cond, ◌∷◌, [], ◌++◌, length};
ghost use Rattle.model.specs.Text.{numeral, fields, line};
ghost use Rattle.text.specs.Wrote.{Writes};

use crate::digits::{digit, entry};

// How many digits a number below 1,000 has.
pub fn digits(n: usize) -> usize
    ensures { result ≡ length (numeral n) }
{
    if n < 10 {
        return 1;
    }
    if n < 100 {
        return 2;
    }
    3
}

// A buffer, and the place in it where the next byte goes.
#[derive(Drop)]
pub struct Pen<'a> {
    pub out: &'a mut [u8],
    pub at: usize,
}

impl<'a> Pen<'a> {
    pub fn new(out: &'a mut [u8]) -> Pen<'a>
        ensures same { result.out.ghost_name ≡ out.entry.ghost_name }
        ensures text { result.out.now ≡ out.old }
        ensures place { result.at ≡ 0 }
    {
        Pen { out, at: 0 }
    }

    pub fn byte(&mut self, b: u8)
        requires { self.old.at + 1 ≤ length self.old.out.now }
        ensures { Writes self.old (b ∷ []) self.new }
    {
        self.out[self.at] = b;
        self.at += 1;
    }

    pub fn word(&mut self, bytes: &[u8])
        requires { self.old.at + length bytes.now ≤ length self.old.out.now }
        ensures { Writes self.old bytes.now self.new }
    {
        let end = self.at + bytes.len();
        self.out[self.at..end].copy_from_slice(bytes);
        self.at = end;
    }

    // A digit that is left out where it would be a leading zero.
    fn leading(&mut self, stands: bool, b: u8)
        requires { self.old.at + length (cond stands (b ∷ []) []) ≤ length self.old.out.now }
        ensures { Writes self.old (cond stands (b ∷ []) []) self.new }
    {
        if stands {
            self.byte(b);
        }
    }

    // A number below 1,000 in decimal digits, none of them a leading zero.
    pub fn number(&mut self, n: usize)
        requires { (n < 1000) × (self.old.at + length (numeral n) ≤ length self.old.out.now) }
        ensures { Writes self.old (numeral n) self.new }
    {
        let e = entry(n);
        self.leading(99 < n, digit(e, 8));
        self.leading(9 < n, digit(e, 4));
        self.byte(digit(e, 0));
    }

    // A field: a tab and a number.
    pub fn field(&mut self, n: usize)
        requires { (n < 1000) × (self.old.at + 1 + length (numeral n) ≤ length self.old.out.now) }
        ensures { Writes self.old (9 ∷ numeral n) self.new }
    {
        self.byte(b'\t');
        self.number(n);
    }

    // A field for each of the given bytes.
    pub fn fields(&mut self, cells: &[u8])
        requires { self.old.at + 4 * length cells.now ≤ length self.old.out.now }
        ensures { Writes self.old (fields cells.now) self.new }
    {
        for cell in cells {
            self.field(usize::from(*cell));
        }
    }

    // A line of a word and one number.
    pub fn head(&mut self, word: &[u8], n: usize)
        requires { (n < 1000) × (self.old.at + length (line word.now (n ∷ [])) ≤ length self.old.out.now) }
        ensures { Writes self.old (line word.now (n ∷ [])) self.new }
    {
        self.word(word);
        self.field(n);
        self.byte(b'\n')
    }

    // A word and two fields, as a line begins.
    pub fn pair(&mut self, word: &[u8], a: usize, b: usize)
        requires { (a < 1000) × (b < 1000) × (self.old.at + length (word.now ++ fields (a ∷ b ∷ [])) ≤ length self.old.out.now) }
        ensures { Writes self.old (word.now ++ fields (a ∷ b ∷ [])) self.new }
    {
        self.word(word);
        self.field(a);
        self.field(b);
    }

    // A line of a word and two numbers.
    pub fn pair_line(&mut self, word: &[u8], a: usize, b: usize)
        requires { (a < 1000) × (b < 1000) × (self.old.at + length (line word.now (a ∷ b ∷ [])) ≤ length self.old.out.now) }
        ensures { Writes self.old (line word.now (a ∷ b ∷ [])) self.new }
    {
        self.pair(word, a, b);
        self.byte(b'\n');
    }
}
