// The numbers of a line's fields.
ghost use Rattle.std.specs.Prelude.{◌≡◌, ◌<◌, ◌≤◌, length, IfSome};
ghost use Rattle.model.specs.Limits.{max_cells};
ghost use Rattle.sheet.specs.Parts.{as_read, numbers_past, number_past, only_of, behind, cells_given, cells_read};

use text::{Number, scan};

// The number behind a word with its tab.
pub fn first_number(line: &[u8], word: &[u8]) -> Option<Number>
    ensures number { result ≡ number_past word.now line.now }
    ensures inside { IfSome result (λ n. n.next ≤ length line.now) }
{
    if !scan::opens_with(line, word) {
        return None;
    }
    scan::number(line, word.len())
}

// The only number behind a word with its tab.
pub fn only_number(line: &[u8], word: &[u8]) -> Option<usize>
    ensures { as_read result ≡ only_of (numbers_past word.now line.now) }
{
    let number = first_number(line, word)?;
    if number.next < line.len() {
        return None;
    }
    Some(number.value)
}

// How many fields there are behind that which ends at `from`, if they are numbers below `limit`, one at least and no more than fit into `out`. The
// numbers go there.
pub fn read_cells(line: &[u8], from: usize, limit: usize, out: &mut [u8]) -> Option<usize>
    requires { (from ≤ length line.now) × (limit ≤ max_cells) }
    ensures { (cells_read result out.new ≡ cells_given limit (length out.new) (behind line.now from)) × IfSome result (λ n. (0 < n) × (n ≤ length out.new)) }
{
    let mut next = from;
    for (i, cell) in out.iter_mut().enumerate() {
        let number = scan::number(line, next + 1)?;
        if limit <= number.value {
            return None;
        }
        *cell = number.value as u8;
        if line.len() <= number.next {
            return Some(i + 1);
        }
        next = number.next;
    }
    None
}
