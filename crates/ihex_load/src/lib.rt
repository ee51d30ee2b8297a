//! Intel HEX files, read as images.
#![tactic(auto)]

mod fault;
pub mod laws;
mod lines;
mod load;
mod record;

pub use fault::HexFault;
pub use load::read_hex;
