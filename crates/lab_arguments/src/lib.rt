//! The words of the command line: the request that they make, or why they are refused.
#![tactic(auto)]

mod command;
pub mod laws;
mod read;
mod request;
mod text;
mod usage;

pub use read::read_words;
pub use request::{Request, UsageCause, WordsFault};
pub use usage::usage_line;
