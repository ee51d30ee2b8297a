//! Platform text, read as its list of entries.
#![tactic(auto)]

mod comments;
mod cuts;
mod entry;
mod fault;
mod features;
mod heads;
mod items;
pub mod laws;
mod lines;
mod numbers;
mod platform;
mod tokens;

pub use entry::{Ends, Entry, Head, Item, ItemWhat, Place, Span, Value};
pub use fault::{PlatCause, PlatFault};
pub use platform::read_platform;
