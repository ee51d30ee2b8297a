//! The keys that order events across boards, and the devices that events come from.
use crate::number::{BoardNo, Micros, PostNo};

/// The place of an event in the order of the whole laboratory: by time, then by board, then by
/// the event's number on its board.
#[derive(Clone, Copy, PartialEq, Eq, PartialOrd, Ord)]
pub struct Key {
    pub at: Micros,
    pub board: BoardNo,
    pub number: PostNo,
}

/// One device of one board. `dev` is its place among the board's devices that reach other boards,
/// counted from 0 in order of their entries.
#[derive(Clone, Copy, PartialEq, Eq, PartialOrd, Ord, Hash)]
pub struct Member {
    pub board: BoardNo,
    pub dev: u8,
}
