// One line by itself: the word that opens it, its numbers, and what a line in range adds to a job.
ghost use Rattle.std.specs.Prelude.{◌≡◌, ◌⊎◌, true, false, length, drop, MatchOption};
ghost use Rattle.model.specs.Text.{starts_with, fields_of};
ghost use Rattle.model.specs.ReadJob.{field_count};
ghost use Rattle.reader.specs.Lines.{kind_of, answer_to, Small, line_with, word_of, first_fault, numbers_given};

use job::state::{Call, CallKind, Track};
use model::answer::Answer;
use text::Number;

// What a line is about, by its word.
#[derive(Clone, Copy, Debug, PartialEq, Eq)]
pub enum Kind {
    Floor,
    Track,
    Cart,
    Call(CallKind),
}

// What a line adds, its numbers in range: the count of cells, a track, a cart's cell, or a call.
#[derive(Clone, Copy, Debug, PartialEq, Eq)]
pub enum Line {
    Floor(usize),
    Track(Track),
    Cart(u8),
    Call(Call),
}

// The first test that a line fails.
#[derive(Clone, Copy, Debug, PartialEq, Eq)]
pub enum Fault {
    Form,
    Number,
    Range,
    Room,
    Doubled,
}

impl From<Fault> for Answer {
    ghost from_gives = { λ fault answer. answer ≡ answer_to fault };

    fn from(fault: Fault) -> Answer {
        match fault {
            Fault::Form => Answer::BadLine,
            Fault::Number => Answer::NoNumber,
            Fault::Range => Answer::OutOfRange,
            Fault::Room => Answer::TooMany,
            Fault::Doubled => Answer::Doubled,
        }
    }
}

impl Kind {
    pub fn field_count(self) -> usize
        ensures { result ≡ field_count (kind_of self) }
    {
        match self {
            Kind::Floor | Kind::Cart => 1,
            Kind::Track | Kind::Call(_) => 2,
        }
    }

    // The line of this kind with these numbers.
    pub fn line(self, a: usize, b: usize) -> Line
        requires { Small (kind_of self) a b }
        ensures { result ≡ line_with self a b }
    {
        match self {
            Kind::Floor => Line::Floor(a),
            Kind::Track => Line::Track(Track {
                from: a as u8,
                to: b as u8,
            }),
            Kind::Cart => Line::Cart(a as u8),
            Kind::Call(kind) => Line::Call(Call {
                kind,
                cell: a as u8,
                deadline: b as u8,
            }),
        }
    }
}

// The fault of fields that are not so many numbers: their count is tested before what they are.
fn first_fault(fields: &[u8], count: usize) -> Fault
    ensures { result ≡ first_fault count (fields_of fields.now) }
{
    if text::scan::field_count(fields) != count {
        return Fault::Form;
    }
    Fault::Number
}

// As many fields as asked for, and each a number, with an exponent or without; the second is 0 where there is one only. They are counted only
// where one is none. The scanner is called at one place: it is too long to be put in line at two, and a call for each number would take a
// quarter more of the time of reading.
pub fn numbers_of(fields: &[u8], count: usize) -> Result<(usize, usize), Fault>
    requires { (count ≡ 1) ⊎ (count ≡ 2) }
    ensures { result ≡ numbers_given count (fields_of fields.now) }
{
    let mut a = 0;
    let mut b = 0;
    let mut at = 0;
    for _ in 0..count {
        let Some(Number { value, next }) = text::exponent::number(fields, at) else {
            return Err(first_fault(fields, count));
        };
        a = b;
        b = value;
        at = next + 1;
    }
    if at <= fields.len() {
        return Err(Fault::Form);
    }
    if count == 1 {
        return Ok((b, 0));
    }
    Ok((a, b))
}

// What stands behind the word, if the line starts with it.
#[tactic(auto, using(crate::proofs::Words::strips_as))]
fn behind<'a>(line: &'a [u8], word: &[u8]) -> Option<&'a [u8]>
    ensures { MatchOption result (starts_with word.now line.now ≡ false) (λ rest. (starts_with word.now line.now ≡ true) × (rest.now ≡ drop (length word.now) line.now)) }
{
    line.strip_prefix(word)
}

// The word that opens the line, as a kind, if it is one of the five; what follows it and its tab are the fields.
pub fn word_of(line: &[u8]) -> Option<(Kind, &[u8])>
    ensures { MatchOption result (word_of line.now ≡ None) (λ w. word_of line.now ≡ Some (w.0, w.1.now)) }
{
    if let Some(fields) = behind(line, b"FLOOR\t") {
        return Some((Kind::Floor, fields));
    }
    if let Some(fields) = behind(line, b"TRACK\t") {
        return Some((Kind::Track, fields));
    }
    if let Some(fields) = behind(line, b"CART\t") {
        return Some((Kind::Cart, fields));
    }
    if let Some(fields) = behind(line, b"CALL\t") {
        return Some((Kind::Call(CallKind::Lift), fields));
    }
    if let Some(fields) = behind(line, b"BAY\t") {
        return Some((Kind::Call(CallKind::Bay), fields));
    }
    None
}
