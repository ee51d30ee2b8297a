//! The lines of a monitor script in the order in which they are taken: files that are included,
//! macros, and variables.
#![tactic(auto)]

mod answer;
mod body;
mod cause;
mod flow;
mod form;
mod item;
pub mod laws;
mod lines;
mod variables;

pub use answer::{FlowFault, Next};
pub use cause::ScriptCause;
pub use flow::Flow;
