//! Jobs of a round that know when their next slots lie, and who watches them: a watcher is shown the jobs before each
//! slot, in the very states that they have in a round that nobody watches.
#![tactic(auto)]

mod slot;
mod timed;
mod unwatched;
mod watcher;

pub use slot::Slot;
pub use timed::Timed;
pub use unwatched::Unwatched;
pub use watcher::Watcher;
