//! Atomic instructions: their names and their registers.

/// An atomic instruction's name, in the order of the listing of RV32A in chapter 24 of the RISC-V
/// Unprivileged ISA, version 20191213.
#[derive(Clone, Copy, PartialEq, Eq)]
pub enum AtomicOp {
    /// Loads a word and reserves it.
    Lr,
    /// Stores a word where it is reserved.
    Sc,
    /// The others load a word and store its combination with a register: here the register alone.
    Swap,
    Add,
    Xor,
    And,
    Or,
    /// The lesser of the two as signed numbers.
    Min,
    /// The greater of the two as signed numbers.
    Max,
    /// The lesser of the two as unsigned numbers.
    Minu,
    /// The greater of the two as unsigned numbers.
    Maxu,
}

/// An atomic instruction and its registers, by their numbers, 0 to 31. The address is in `rs1`. `Lr`
/// has no `rs2`, which is 0 there.
#[derive(Clone, Copy, PartialEq, Eq)]
pub struct Atomic {
    pub op: AtomicOp,
    pub rd: u8,
    pub rs1: u8,
    pub rs2: u8,
}
