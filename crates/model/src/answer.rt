// The answers of planner, check and map reader, and the 64-bit number that carries one.
ghost use Rattle.std.specs.Prelude.{◌≡◌, ◌+◌, ◌*◌, ◌<◌, ◌^◌};
ghost use Rattle.model.specs.Answers as answers;

// A plan or a choke list, or the place that turns the text, the buffers, the sheet or the map back.
#[derive(Clone, Copy, Debug, PartialEq, Eq)]
pub enum Answer {
    Plan = 0,
    Cannot = 1,
    TextTooLong = 2,
    BadLine = 3,
    NoNumber = 4,
    OutOfRange = 5,
    TooMany = 6,
    Doubled = 7,
    Uneven = 8,
    StoreTooShort = 9,
    SheetTooShort = 10,
    BadSheet = 11,
    WrongSheet = 12,
    BadMap = 13,
    NoFloor = 14,
}

// Why a text is turned back, and the number of the line that is to blame: 0 where none is.
#[derive(Clone, Copy, Debug, PartialEq, Eq)]
pub struct Refusal {
    pub answer: Answer,
    pub line: usize,
}

impl From<Answer> for u64 {
    ghost from_gives = { λ answer n. (n ≡ answers.number answer) × (n < 256) };

    fn from(answer: Answer) -> u64 {
        answer as u64
    }
}

// The answer as the lowest byte, and above it the bytes written or the line.
pub fn packed(answer: Answer, value: u64) -> u64
    requires { value < 2 ^ 56 }
    ensures { result ≡ answers.number answer + 256 * value }
{
    u64::from(answer) + 256 * value
}

impl Refusal {
    pub fn packed(self) -> u64
        requires { self.line < 2 ^ 56 }
        ensures { result ≡ answers.number self.answer + 256 * self.line }
    {
        self::packed(self.answer, self.line as u64)
    }
}
