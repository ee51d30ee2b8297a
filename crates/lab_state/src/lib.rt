//! The laboratory: boards and the hubs between them, run round by round by one worker or several.
#![tactic(auto)]

mod board_change;
mod boards;
mod boundary;
mod changes;
mod faults;
mod fit;
mod hub_list;
mod hubs;
mod lab;
pub mod laws;
mod lending;
mod named_board;
mod names;
mod resume;
mod round;
mod run;
mod spares;
mod team;

pub use faults::{AddFault, ConnectFault, FitFault, HubNameFault, LabFault, RunCause, RunFault};
pub use lab::Lab;
pub use round::RoundLog;
pub use team::Team;
