//! The finisher of a board: a register by which a program says that its test has passed or failed.
#![tactic(auto)]

mod finisher;

pub use finisher::Finisher;
