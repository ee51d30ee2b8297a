//! The devices of the program as one type, and a full stock of them.
#![tactic(auto)]

mod chip;
mod stock;

pub use chip::Chip;
pub use stock::full_stock;
