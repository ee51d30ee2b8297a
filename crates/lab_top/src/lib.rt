//! The whole program: what the command words ask for, from the script's bytes to the log's.
#![tactic(auto)]

mod command_line;
pub mod laws;
mod outside;
mod run;
mod script;
mod snapshots;
mod status;
mod words;

pub use command_line::{command_words, words_after_name};
pub use lab_arguments::UsageCause;
pub use run::run_lab;
pub use status::{Status, exit_code};
