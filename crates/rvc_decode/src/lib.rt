//! Half-words of the compressed instruction set, RV32C without floating point, as the RV32 instructions that they
//! stand for, proved against the tables of the RISC-V manual.
#![tactic(auto)]

mod expander;
mod immediate;
pub mod laws;
mod register;

pub use expander::expand;
