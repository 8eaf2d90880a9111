// Whether choke points are a true choke list.
#![tactic(auto)]

pub mod calls;
pub mod choke;
pub mod layer;
#[cfg(test)]
mod tests;
