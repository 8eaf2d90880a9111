// Whether paths and spare carts' rides are a plan.
#![tactic(auto)]

pub mod clear;
pub mod order;
pub mod plan;
pub mod walks;
