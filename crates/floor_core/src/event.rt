//! What happens on a floor.
use dev_core::Post;
use lab_num::BoardNo;

/// One step of a worker, or the end of the round.
#[derive(Clone, Copy)]
pub enum Event {
    /// A worker takes a board that is at home and gives it a turn of so many slots.
    Claim {
        worker: u8,
        board: BoardNo,
        slots: u64,
    },
    /// The worker that has the board puts the board's oldest unsent post into the mail.
    Post {
        worker: u8,
        board: BoardNo,
    },
    /// The worker that has the board, all of whose posts are sent, brings it home.
    Report {
        worker: u8,
        board: BoardNo,
    },
    /// All boards are at home, paid up and without unsent posts, and the round ends.
    Close,
}

/// A post in the mail, and the board whose job posted it.
#[derive(Clone, Copy)]
pub struct Mailed {
    pub by: BoardNo,
    pub post: Post,
}

/// What became of a list of events. Places count from 0.
#[derive(Clone, Copy, PartialEq, Eq)]
pub enum Ran {
    /// All of them happened.
    All,
    /// The event at this place is the first that is not legal. Those before it happened.
    Stopped(usize),
    /// At the event at this place, which was legal, memory ran out. The floor is ended.
    Starved(usize),
}
