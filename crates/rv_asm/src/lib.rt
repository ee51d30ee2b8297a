//! An assembler of RV32 instructions, the inverse of the decoder.
#![tactic(auto)]

mod assembler;
mod encoder;
mod fault;
mod lines;
mod mnemonics;
mod numbers;
mod operands;
mod shapes;
mod targets;
mod texts;

pub use assembler::assemble;
pub use encoder::{encode, is_valid};
pub use fault::{AsmCause, AsmFault};
