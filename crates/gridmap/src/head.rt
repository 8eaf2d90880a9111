// The lines before the rows. Each byte is looked at only after those before it fit, so that no more of a map is read than its refusal needs.
ghost use Rattle.std.specs.Prelude.{◌≡◌, ◌≤◌, ◌<◌, length};
ghost use Rattle.text.specs.Scan.{line_of};
ghost use Rattle.gridmap.specs.Lines.{opens_at, WordAt, DigitsAt, SizeAt};

use model::Limits;
use text::Number;
use text::scan::opens_with;

// Whether the word stands at a place, and a byte behind it.
fn opens_at(map: &[u8], at: usize, word: &[u8]) -> bool
    requires { at ≤ length map.now }
    ensures { result ≡ opens_at word.now map.now at }
{
    let end = at + word.len();
    end < map.len() && opens_with(&map[at..end], word)
}

// Whether the line at a place is the word.
pub fn word_line(map: &[u8], at: usize, word: &[u8]) -> bool
    requires { (at ≤ length map.now) × (line_of word.now ≡ word.now) }
    ensures { WordAt word.now map.now at result }
{
    opens_at(map, at, word) && map[at + word.len()] == b'\n'
}

// A number from 1 to 64, and so of one or two digits, that a line feed ends; and the place behind that.
fn size_at(map: &[u8], first: usize) -> Option<Number>
    requires { first < length map.now }
    ensures { DigitsAt map.now first result }
{
    let a = map[first];
    if a < b'1' || b'9' < a {
        return None;
    }
    let tens = usize::from(a - b'0');
    let second = first + 1;
    let b = *map.get(second)?;
    if b == b'\n' {
        return Some(Number {
            value: tens,
            next: second + 1,
        });
    }
    if b < b'0' || b'9' < b {
        return None;
    }
    let value = tens * 10 + usize::from(b - b'0');
    if Limits::SIDE < value {
        return None;
    }
    let third = second + 1;
    if *map.get(third)? != b'\n' {
        return None;
    }
    Some(Number {
        value,
        next: third + 1,
    })
}

// The size behind the word, if the line at a place is the two.
pub fn size_line(map: &[u8], at: usize, word: &[u8]) -> Option<Number>
    requires { (at ≤ length map.now) × (line_of word.now ≡ word.now) }
    ensures { SizeAt word.now map.now at result }
{
    if !opens_at(map, at, word) {
        return None;
    }
    size_at(map, at + word.len())
}
