// The calls that the controller makes, and what planner and check share.
#![tactic(auto)]

pub mod check;
pub mod map;
pub mod plan;
pub mod refuse;
