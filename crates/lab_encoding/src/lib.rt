//! Values spelled as bytes, and read again: each value has one spelling, no spelling begins another,
//! and bytes that are no spelling are refused. Spelled are numbers, options, lists and texts, and what
//! laboratories are made of: keys, posts, the states of boards and of their devices, processors, timers
//! and interrupt controllers, plans, and open lines.
#![tactic(auto)]

mod board_state;
mod byte_reader;
mod device_states;
mod fault;
mod frames;
mod hart_states;
mod interrupt_states;
mod keys;
mod lists;
mod numbers;
mod open_lines;
mod options;
mod plan;
mod plan_parts;
mod posts;
mod spelled;
mod texts;
mod whole;

pub use byte_reader::ByteReader;
pub use fault::SnapFault;
pub use lists::encode_list;
pub use spelled::Spelled;
pub use whole::{load, one_spelling, save};
