//! Boards for the tests of other crates: plans, a UART that counts its calls, and a gate where boards meet.
#![tactic(auto)]

mod counted;
mod meeting;
mod plans;

pub use counted::CountedUart;
pub use meeting::Meeting;
pub use plans::{
    HARTS_NAMES, MEMORIES, SMALL_KINDS, SMALL_NAMES, SMALL_REGIONS, USUAL_REGIONS, harts_board,
    names_of, small_board, usual_board,
};
