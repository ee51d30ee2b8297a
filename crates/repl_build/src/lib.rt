//! The plan of a board, built from the entries of its platform files.
#![tactic(auto)]

mod attributes;
mod builder;
mod counts;
mod fault;
pub mod laws;
mod merge;
mod names;
mod numbers;
mod places;
mod plan;
mod processors;
mod references;
mod rules;
mod seen;
mod types;
mod wires;

pub use builder::build;
