// The answer that a flow holds: paths from one that serves every call, choke points from one that cannot.
#![tactic(auto)]

pub mod cut;
pub mod paths;
pub mod spares;
pub mod staying;
