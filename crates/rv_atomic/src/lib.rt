//! The atomic instructions on words, and the harts that share a memory by them.
#![tactic(auto)]

mod atomic;
mod combination;
mod decoder;
mod ending;
pub mod laws;
mod shared;
mod span;
mod step;
mod watch;

pub use atomic::{Atomic, AtomicOp};
pub use decoder::decode_atomic;
pub use shared::Shared;
pub use span::is_store;
pub use step::step_shared;
pub use watch::Watch;
