//! The generated laboratory: boards that are made from a seed and send each other bytes, their run, and
//! the summary of it.
#![tactic(auto)]

mod boards;
mod firmware;
mod generated;
mod plan;
mod summary;

pub use generated::generate;
