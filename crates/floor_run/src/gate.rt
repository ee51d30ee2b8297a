//! What is passed before a turn.
use lab_num::BoardNo;

/// Is entered before the first slot of each turn, by whoever takes the turn. It may wait. A board that is run without a
/// bench takes no turn.
pub trait Gate: Sync {
    fn enter(&self, board: BoardNo);

    /// Whether it never holds anyone. So there is no need for two to enter it.
    fn is_open(&self) -> bool {
        false
    }
}

/// A gate that lets everyone pass at once.
#[derive(Clone, Copy)]
pub struct NoGate;

impl Gate for NoGate {
    fn enter(&self, _board: BoardNo) {}

    fn is_open(&self) -> bool {
        true
    }
}
