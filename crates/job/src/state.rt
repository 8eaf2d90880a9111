// A job as its lines say it. The lists lie in the job itself, each with room for as many as the limit allows.
use crate::list::List;
use model::Limits;

// The two cells that a track joins, in the order of its line.
#[derive(Clone, Copy, Debug, Default, PartialEq, Eq)]
pub struct Track {
    pub from: u8,
    pub to: u8,
}

#[derive(Clone, Copy, Debug, Default, PartialEq, Eq)]
pub enum CallKind {
    #[default]
    Lift,
    Bay,
}

#[derive(Clone, Copy, Debug, Default, PartialEq, Eq)]
pub struct Call {
    pub kind: CallKind,
    pub cell: u8,
    pub deadline: u8,
}

// A cart is the cell that it starts on.
#[derive(Clone, Copy)]
pub struct Job {
    pub cells: usize,
    pub tracks: List<Track, { Limits::TRACKS }>,
    pub carts: List<u8, { Limits::CARTS }>,
    pub calls: List<Call, { Limits::CALLS }>,
}
