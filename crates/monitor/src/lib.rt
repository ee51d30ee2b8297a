//! The monitor: the commands of a script, carried out on a laboratory.
#![tactic(auto)]

mod boards;
mod bodies;
mod carry;
mod fault;
mod halt;
mod hubs;
mod images;
pub mod laws;
mod load;
mod memory;
mod monitor;
mod processor;
mod progress;
mod runs;
mod selected;
mod setting;
mod step;
mod stop;
mod text_sink;

pub use bodies::Bodies;
pub use fault::{Cause, ScriptFault};
pub use monitor::Monitor;
pub use progress::Progress;
pub use setting::Setting;
pub use step::Step;
