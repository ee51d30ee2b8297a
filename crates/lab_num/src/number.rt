//! Times, the numbers of boards and posts, limits of the whole laboratory, and the error for memory that ran out.
use std::alloc::{AllocError, AllocFailed};
use std::error::Error;
use std::fmt;

/// A virtual time or a length of time, in whole microseconds. Times count from lab time 0.
#[derive(Clone, Copy, PartialEq, Eq, PartialOrd, Ord)]
pub struct Micros(pub u64);

/// The number of a board: boards count from 0 in order of creation.
#[derive(Clone, Copy, PartialEq, Eq, PartialOrd, Ord, Hash)]
pub struct BoardNo(pub u8);

/// The number of a post or of a log entry among those of its board, counted from 0.
#[derive(Clone, Copy, PartialEq, Eq, PartialOrd, Ord)]
pub struct PostNo(pub u64);

/// Memory ran out.
#[derive(Clone, Copy, PartialEq, Eq, Debug)]
pub struct NoMemory;

/// The most instructions that the processors of a board do together in a microsecond.
pub const MOST_SPEED: u32 = 1000;

/// The most boards of a laboratory.
pub const MOST_BOARDS: u8 = 16;

/// The longest quantum, in microseconds.
pub const MOST_QUANTUM: u64 = 1_000_000;

/// The longest delay of a hub, in microseconds.
pub const MOST_DELAY: u32 = 1_000_000;

/// The most macros, included scripts and platform files that are open beside a script.
pub const DEPTH_LIMIT: u8 = 8;

impl fmt::Display for NoMemory {
    ghost use Rattle.std.specs.Prelude.{Some, codes};

    ghost output = { λ _. Some (codes "out of memory") };

    fn fmt<W: fmt::Write>(&self, f: &mut fmt::Formatter<W>) -> fmt::Result {
        write!(f, "out of memory")
    }
}

impl Error for NoMemory {}

impl From<AllocError> for NoMemory {
    fn from(_error: AllocError) -> NoMemory {
        NoMemory
    }
}

impl<T: Drop> From<AllocFailed<T>> for NoMemory {
    fn from(_error: AllocFailed<T>) -> NoMemory {
        NoMemory
    }
}
