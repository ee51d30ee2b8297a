//! What the reads and writes of CSRs are given, and how they are refused.

/// What a slot sees from outside the hart: the pending interrupts and the time of the board's
/// timer.
#[derive(Clone, Copy)]
pub struct Lines {
    /// The lines of the interrupts, at bits 3, 7 and 11; other bits are not read.
    pub mip: u32,
    /// The value of mtime, or 0 where there is no timer.
    pub mtime: u64,
}

/// Why a CSR was not read or written.
#[derive(Clone, Copy, PartialEq, Eq)]
pub enum CsrFault {
    /// There is no CSR of this number, or it is read-only and was to be written.
    Illegal,
}
