//! The floor of one round: boards' jobs, the workers that take turns with them, and the posts that
//! the jobs make, as a machine that is right whatever the order of events. No worker runs here.
#![tactic(auto)]

mod desk;
mod event;
mod floor;
mod job;
pub mod laws;

pub use event::{Event, Mailed, Ran};
pub use floor::Floor;
pub use job::{Job, Turn};
