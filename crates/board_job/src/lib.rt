//! A board with its grant, as a job of `floor_core`: so what that crate promises of every order of
//! events holds of boards. And all boards of a round, run by workers.
#![tactic(auto)]

mod board_job;
mod boxed;
pub mod laws;
mod round;

pub use board_job::BoardJob;
pub use boxed::BoxedBoardJob;
pub use round::{run_board_jobs, run_board_jobs_with, run_boards_in_order};
