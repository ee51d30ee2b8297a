//! What using slots of a grant answers.

/// Whether a board has reached the end of its grant.
#[derive(Clone, Copy, PartialEq, Eq)]
pub enum Report {
    /// It has: nothing of the grant is left, and time may go on.
    Continue,
    /// It has not: some slots of the grant are left.
    Break,
}
