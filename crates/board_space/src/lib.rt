//! All of a board but its processors and what it makes: the memories, the timer, the interrupt controller and the
//! devices of its plan, with their interrupt lines; and the state of a board, as data.
#![tactic(auto)]

mod board_device;
mod remembered;
mod space;
mod state;

pub use space::{Parts, Space, regions_and_memories};
pub use state::{BoardState, state_fits};
