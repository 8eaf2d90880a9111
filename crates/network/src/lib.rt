// The graph of a job, and the store that its flow is kept in.
#![tactic(auto)]

pub mod planes;
