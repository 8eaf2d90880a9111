// Serving calls one by one: a search back in time for a free cart, and the way it finds laid into the flow.
#![tactic(auto)]

pub mod augment;
pub mod search;
pub mod serve;
