// The reader of job texts: one pass over the text, into a job that is filled where it stands.
#![tactic(auto)]

pub mod draft;
pub mod line;
pub mod read;
