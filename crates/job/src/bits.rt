// A table of bits, eight to a byte: bit i is bit i % 8 of byte i / 8.
ghost use Rattle.std.specs.Prelude.{◌≡◌, ◌*◌, ◌<◌, length, replicate};
ghost use Rattle.model.specs.Limits.{max_cells};
ghost use Rattle.job.specs.Bits.{bit_at, with_bit, pair_at};

// Whether bit i of the table is set.
pub fn has(table: &[u8], i: usize) -> bool
    requires { i < 8 * length table.now }
    ensures { result ≡ bit_at table.now i }
{
    (table[i / 8] >> (i % 8)) & 1 == 1
}

// Sets bit i of the table.
pub fn add(table: &mut [u8], i: usize)
    requires { i < 8 * length table.old }
    ensures { table.new ≡ with_bit table.old i }
{
    table[i / 8] |= 1 << (i % 8);
}

// A table that owns its bytes.
#[derive(Clone, Copy)]
pub struct Bits<const BYTES: usize> {
    pub bytes: [u8; BYTES],
}

impl<const BYTES: usize> Bits<BYTES> {
    // No bit is set.
    pub fn new() -> Self
        ensures { result.bytes ≡ replicate BYTES 0 }
    {
        Bits { bytes: [0; BYTES] }
    }

    // Whether bit i is set.
    pub fn has(&self, i: usize) -> bool
        requires { i < 8 * BYTES }
        ensures { result ≡ bit_at self.now.bytes i }
    {
        self::has(&self.bytes, i)
    }

    // Sets bit i.
    pub fn add(&mut self, i: usize)
        requires { i < 8 * BYTES }
        ensures { self.new.bytes ≡ with_bit self.old.bytes i }
    {
        self::add(&mut self.bytes, i)
    }
}

// The place of two cells in a table with a bit for each two, the same either way round.
pub fn pair(a: usize, b: usize) -> usize
    requires { (a < max_cells) × (b < max_cells) }
    ensures { result ≡ pair_at a b }
{
    let (low, high) = if a < b { (a, b) } else { (b, a) };
    high * (high + 1) / 2 + low
}
