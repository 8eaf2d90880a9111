// Reading: where a line ends, the word it opens with, its fields and their numbers.
ghost use Rattle.std.specs.Prelude.{◌≡◌, ◌==◌, ◌+◌, ◌≤◌, ◌∷◌, ◌++◌, length, drop, position, MatchOption};
ghost use Rattle.model.specs.Text.{is_digit, starts_with, fields_of};
ghost use Rattle.model.specs.ReadJob.{is_empty};
ghost use Rattle.text.specs.Scan.{line_of, field_of, number_at, digits_at, may_go_on, ended};

use crate::Number;

// The place of the first line feed, if there is one.
fn feed(s: &[u8]) -> Option<usize>
    ensures { result ≡ position (λ b. b == 10) s.now }
{
    s.iter().position(|b| *b == b'\n')
}

// The line that starts at `at`, without its line feed, if one ends it.
pub fn line(s: &[u8], at: usize) -> Option<&[u8]>
    requires { at ≤ length s.now }
    ensures { MatchOption result (line_of (drop at s.now) ≡ drop at s.now) (λ l. (l.now ≡ line_of (drop at s.now)) × (drop at s.now ≡ l.now ++ 10 ∷ drop (at + length l.now + 1) s.now)) }
{
    let rest = &s[at..];
    let n = feed(rest)?;
    Some(&rest[..n])
}

// The place behind the line that starts at `at` and its line feed: past the end where it has none.
pub fn line_past(s: &[u8], at: usize) -> usize
    requires { at ≤ length s.now }
    ensures { result ≡ at + length (line_of (drop at s.now)) + 1 }
{
    match line(s, at) {
        Some(line) => at + line.len() + 1,
        None => s.len() + 1,
    }
}

// That line, without its line feed, by the place behind it.
pub fn line_before(s: &[u8], at: usize, past: usize) -> &[u8]
    requires { (at ≤ length s.now) × (past ≡ at + length (line_of (drop at s.now)) + 1) }
    ensures { result.now ≡ line_of (drop at s.now) }
{
    &s[at..past - 1]
}

// Whether s starts with word. Byte by byte: the library's `starts_with` compares all of them at once, and a map may end in memory behind the first that differs.
pub fn opens_with(s: &[u8], word: &[u8]) -> bool
    ensures { result ≡ starts_with word.now s.now }
{
    word.len() <= s.len() && word.iter().zip(s).all(|(w, b)| w == b)
}

// How many fields s has: one more than its tabs.
#[tactic(auto, using(crate::proofs::Steps::fields_counted))]
pub fn field_count(s: &[u8]) -> usize
    ensures { result ≡ length (fields_of s.now) }
{
    s.iter().filter(|b| **b == b'\t').count() + 1
}

fn digit(b: u8) -> bool
    ensures { result ≡ is_digit b }
{
    b.is_ascii_digit()
}

// Whether a further digit may follow digits with the value, or none.
fn may_go_on(value: Option<usize>) -> bool
    ensures { result ≡ may_go_on value }
{
    let Some(v) = value else {
        return true;
    };
    0 < v && v < 100
}

// The number that ends before a place, by the value of its digits.
fn ended(value: Option<usize>, next: usize) -> Option<Number>
    ensures { result ≡ ended next value }
{
    let value = value?;
    Some(Number { value, next })
}

// The number that the digits from `at` on are, and the place behind them.
pub fn digits(s: &[u8], at: usize) -> Option<Number>
    ensures { result ≡ digits_at s.now at }
{
    let mut value = None;
    for next in at..s.len() {
        let b = s[next];
        if !digit(b) {
            return ended(value, next);
        }
        if !may_go_on(value) {
            return None;
        }
        value = Some(value.unwrap_or(0) * 10 + usize::from(b - b'0'));
    }
    ended(value, s.len())
}

// Whether nothing of a field is left from `at` on: it ends before a tab or at the end.
pub fn field_ends(s: &[u8], at: usize) -> bool
    ensures { result ≡ is_empty (field_of (drop at s.now)) }
{
    s.len() <= at || s[at] == b'\t'
}

// The number that is the field from `at` on.
pub fn number(s: &[u8], at: usize) -> Option<Number>
    ensures { result ≡ number_at s.now at }
{
    let number = digits(s, at)?;
    if !field_ends(s, number.next) {
        return None;
    }
    Some(number)
}
