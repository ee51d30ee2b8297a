//! The CAN controller of a board: the SJA1000 in BasicCAN mode. It sends at once; it has no
//! arbitration, bus errors or sleep mode.
#![tactic(auto)]

mod bits;
mod buffers;
mod can;
mod filter;
mod interrupts;
pub mod laws;
mod receiver;
mod registers;

pub use can::Can;
