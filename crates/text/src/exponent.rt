// Numbers of a job: behind the digits may stand an exponent, which is `e` or `E`, an optional plus and one digit.
ghost use Rattle.std.specs.Prelude.{◌≡◌, ◌+◌, ◌*◌, ◌^◌, ◌<◌, drop};
ghost use Rattle.model.specs.Text.{is_mark};
ghost use Rattle.text.specs.Scan.{scaled_at, with_power, plus_size};

use crate::{Number, scan};

fn mark(b: u8) -> bool
    ensures { result ≡ is_mark b }
{
    b == b'e' || b == b'E'
}

// The place behind a plus at `at`, or `at` where there is none.
fn past_plus(s: &[u8], at: usize) -> usize
    ensures { result ≡ at + plus_size (drop at s.now) }
{
    if s.get(at) == Some(&b'+') {
        return at + 1;
    }
    at
}

// A number times ten to a power: 999 billion at most.
fn raised(value: usize, power: usize) -> usize
    requires { (value < 1000) × (power < 10) }
    ensures { result ≡ value * 10 ^ power }
{
    let mut v = value;
    for _ in 0..power {
        v = v * 10;
    }
    v
}

// A number with the exponent that is the rest of its field, from `at` on, or with none where nothing is left.
fn with_power(s: &[u8], at: usize, value: usize) -> Option<Number>
    requires { value < 1000 }
    ensures { result ≡ with_power s.now at value }
{
    if scan::field_ends(s, at) {
        return Some(Number { value, next: at });
    }
    if !mark(s[at]) {
        return None;
    }
    let from = past_plus(s, at + 1);
    let power = scan::number(s, from)?;
    if power.next != from + 1 {
        return None;
    }
    Some(Number {
        value: raised(value, power.value),
        next: power.next,
    })
}

// The number that is the field from `at` on, with an exponent or without one.
pub fn number(s: &[u8], at: usize) -> Option<Number>
    ensures { result ≡ scaled_at s.now at }
{
    let number = scan::digits(s, at)?;
    with_power(s, number.next, number.value)
}
