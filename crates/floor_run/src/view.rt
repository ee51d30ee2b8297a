//! What a seat at the bench knows.
use std::collections::LinkedList;

/// What a seat at the bench knows. Contracts alone speak of it: no value of it is made.
pub struct View<J> {
    /// The jobs that were put on the bench, by board.
    pub starts: LinkedList<J>,
    /// How many claims the seat has made.
    pub claims: u64,
    /// The board of the last claim.
    pub board: u64,
    /// The word that the last claim found: four times the number of the board's reports, and 0 at home with slots
    /// left, 1 out, 3 paid up.
    pub found: u64,
    /// The job as claimed, where the seat holds the board of its last claim.
    pub held: Option<J>,
    /// The seat was joined to another.
    pub spent: bool,
}
