// The planner: a plan, or a true choke list.
#![tactic(auto)]

pub mod plan;
pub mod solve;
