//! Laws of scripts that readers of logs rely on: of a script with more lines behind, and of lines in other
//! places. Each is the contract of a function that does nothing when it runs.
#![tactic(auto)]

mod beginning;
mod meaning;

pub use beginning::longer_scripts_begin_alike;
pub use meaning::{lines_stand_for_their_body, places_do_not_matter};
