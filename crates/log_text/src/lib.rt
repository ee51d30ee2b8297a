//! The bytes of the log.
#![tactic(auto)]

mod frame;
mod item;
pub mod laws;
mod line;
mod lines;
mod names;
mod number;

pub use line::OpenLine;
pub use lines::{Lines, are_unended};
pub use number::Word;
