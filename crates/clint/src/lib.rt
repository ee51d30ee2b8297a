//! The CLINT of a board: the counter `mtime`, one timer interrupt and one software interrupt, which the board's wires
//! lead to its harts.
#![tactic(auto)]

mod clint;
mod counter;
pub mod laws;
mod registers;
mod state;

pub use clint::Clint;
pub use state::ClintState;
