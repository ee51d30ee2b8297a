//! The grant of time that one board has: how many slots it pays for, and how many are used.
#![tactic(auto)]

mod handle;
mod report;

pub use handle::Handle;
pub use report::Report;
