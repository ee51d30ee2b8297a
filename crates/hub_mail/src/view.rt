//! What the seats of the queue know. No value of these types is ever made.
use dev_core::Post;
use std::collections::LinkedList;

/// What the pass of a board had posted when it was taken in.
pub struct Sent {
    pub board: u8,
    pub posts: LinkedList<Post>,
}

/// What one seat of the queue knows.
pub enum View {
    /// The boss's seat: the count of the passes split off, the posts popped, and the passes taken in.
    Owner(u8, LinkedList<Post>, LinkedList<Sent>),
    /// A pass's seat: its board, and what it has posted.
    Sender(u8, LinkedList<Post>),
    /// The seat of a pass that was taken in.
    Spent,
}
