// Tables of the floor, and the order of a sheet's lines.
#![tactic(auto)]

pub mod order;
pub mod tables;
