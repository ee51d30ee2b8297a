//! The next slot of one of several jobs.

/// The next slot of one of several jobs.
#[derive(Clone, Copy)]
pub struct Slot {
    /// When it lies.
    pub at: u64,
    /// The place of the job among the others.
    pub place: usize,
}
