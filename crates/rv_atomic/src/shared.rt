//! What a hart does in a slot, where it shares its memory.
use crate::atomic::Atomic;
use rv_exec::Fetched;

/// What a slot does.
#[derive(Clone, Copy)]
pub enum Shared {
    /// What was fetched, by the rules of a hart alone.
    Plain(Fetched),
    /// An atomic instruction.
    Atomic(Atomic),
}
