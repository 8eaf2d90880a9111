// Lines, words and numbers: read from a text, and written into a buffer.
#![tactic(auto)]

pub mod digits;
pub mod exponent;
pub mod lines;
pub mod put;
pub mod scan;

// A number that was read, and the place after it. It may be too large for any use: it has no bound but that of its spelling.
#[derive(Clone, Copy, Debug, PartialEq, Eq)]
pub struct Number {
    pub value: usize,
    pub next: usize,
}
