//! A platform's files: the one that a command names, with all that its `using` lines name.
#![tactic(auto)]

mod content;
mod fault;
pub mod laws;
mod load;

pub use fault::{FileCause, FileFault, LoadFault};
pub use load::{Loaded, load_platform};
