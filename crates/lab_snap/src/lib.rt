//! What a snapshot holds, saved as bytes and loaded again: memories by the pages that are in use, hubs,
//! boards that have a plan, and whole laboratories.
#![tactic(auto)]

mod hub;
mod lab;
mod loading;
mod machine;
mod memories;
mod memory;
mod saving;
mod snapshot;
mod valid;

pub use hub::SavedHub;
pub use lab::{SavedBoard, SavedLab, one_lab_spelling, read_lab};
pub use loading::load;
pub use machine::SavedMachine;
pub use memory::{decode_memory, encode_memory, one_memory_spelling};
pub use saving::save;
pub use snapshot::snapshots_are_what_they_spell;
