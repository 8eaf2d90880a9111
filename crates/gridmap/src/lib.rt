// Grid maps: read, and their floors written as FLOOR and TRACK lines.
#![tactic(auto)]

pub mod floor;
pub mod head;
pub mod letters;
pub mod read;
pub mod tracks;
