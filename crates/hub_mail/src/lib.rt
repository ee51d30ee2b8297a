//! The mailbox of a round: each board posts by a pass of its own, from whatever thread has it, and
//! one boss takes all posts out. What is taken out of each board is what its pass has posted, in
//! order.
#![tactic(auto)]

pub mod laws;
mod mail;
mod rule;
mod view;

pub use mail::{Boss, Mail, Pass};
