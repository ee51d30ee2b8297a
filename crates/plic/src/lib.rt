//! The PLIC of a board: it brings the interrupts of up to 127 sources to up to 15 contexts.
#![tactic(auto)]

mod best;
pub mod laws;
mod plic;
mod register;
mod sources;
mod state;
mod valid;

pub use plic::Plic;
pub use state::PlicState;
