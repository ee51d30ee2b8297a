//! What a run is lent of the outside.

/// The outside of a run: the files that it reads, its output, and the store of its snapshots.
#[derive(Drop)]
pub(crate) struct Outside<'files, 'out, 'store, F, K, S> {
    pub files: &'files mut F,
    pub out: &'out mut K,
    pub store: &'store mut S,
}
