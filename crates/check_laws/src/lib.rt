//! What `check` finds of what `run` refuses. Each law is the contract of a function that does nothing when it runs.
#![tactic(auto)]

mod lines;
mod scripts;

pub use lines::checks_refuse_as_runs_do;
pub use scripts::checks_find_what_runs_refuse;
