//! The source of a laboratory's time: it grants time to its members, and its own time is that of
//! the slowest of them.
#![tactic(auto)]

mod source;

pub use source::Source;
