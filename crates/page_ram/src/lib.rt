//! The memory of a board: bytes that are loaded and stored as little-endian numbers.
#![tactic(auto)]

pub mod laws;
mod maybe_box;
mod number;
mod page;
mod ram;

pub use page::PAGE_SIZE;
pub use ram::PageRam;
