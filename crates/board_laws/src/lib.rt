//! Laws of boards that no code rests on. Each is the contract of a function that does nothing when it runs.
#![tactic(auto)]

mod alone;
mod resets;
mod turns;

pub use alone::one_hart_goes_on_alone;
pub use resets::resets_agree;
pub use turns::harts_take_turns;
