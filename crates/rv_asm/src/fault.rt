//! Why a text is not assembled.

/// What is wrong with a line.
#[derive(Clone, Copy, PartialEq, Eq, Debug)]
pub enum AsmCause {
    /// The first word is neither an instruction nor `.word`.
    Name,
    /// The operands are of another shape, or the label is no name or stands alone.
    Form,
    /// The line names a label that no line gives, or gives one that an earlier line gives.
    Label,
    /// A number is outside its field, or the offset of a branch or of `jal` is odd.
    Range,
}

/// Why a text is not assembled.
#[derive(Clone, Copy, Debug)]
pub enum AsmFault {
    /// The first line with a fault: its number, from 1 on, and the cause, the first in the order of
    /// `AsmCause`.
    Line { n: u32, cause: AsmCause },
    /// Memory ran out.
    Memory,
}
