//! Laws of laboratories that no code rests on. Each is the contract of a function that the program never calls.
#![tactic(auto)]

mod rounds;
mod runs;
mod workers;

pub use rounds::{
    boundaries_agree, hubs_keep_order, posts_are_handed_over_once, rounds_lose_nothing,
    undelayed_rounds_agree,
};
pub use runs::{runs_end, runs_of_no_time_change_nothing, runs_tell_of_shown_devices};
pub use workers::any_workers_agree;
