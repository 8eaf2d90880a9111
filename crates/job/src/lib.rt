// A job as lists, its last step and least buffers, the lines of a sheet as they are held, and a table of bits.
#![tactic(auto)]

pub mod bits;
pub mod held;
pub mod list;
pub mod size;
pub mod state;
