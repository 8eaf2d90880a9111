// The lines of a sheet as they are held.
use model::Limits;

// A path, or a spare cart's ride, which has no call: its cells are the first of the row, up to that of the last step.
#[derive(Clone, Copy)]
pub struct Ride {
    pub cart: u8,
    pub call: u8,
    pub last: u8,
    pub cells: [u8; Limits::STEPS],
}

impl Ride {
    // What stands in a buffer of rides before it is written.
    pub const BLANK: Ride = Ride {
        cart: 0,
        call: 0,
        last: 0,
        cells: [0; Limits::STEPS],
    };
}

// A choke point: a cell at a step, or a whole call by its number. They are in the order of a sheet's lines: cells by step, then cell, and behind them calls by number.
#[derive(Clone, Copy, Debug, PartialEq, Eq, PartialOrd, Ord)]
pub enum Choke {
    Cell { step: u8, cell: u8 },
    Call { call: u8 },
}

impl Default for Choke {
    fn default() -> Choke {
        Choke::Call { call: 0 }
    }
}
