//! Laws that readers of logs rely on. Each is the contract of a function that does nothing when it runs.
#![tactic(auto)]

mod checking;
mod joining;
mod places;
mod reading;

pub use checking::{checks_leave_time, checks_take_no_slot};
pub use joining::runs_of_a_script_join;
pub use places::{places_rise, saves_are_kept};
pub use reading::only_what_is_read_matters;
