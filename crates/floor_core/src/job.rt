//! The work of one board in one round.
ghost use Rattle.std.specs.Prelude.{◌≡◌, ◌≢◌, ℕ, ◌++◌, [], IsTrue, min, slice_get, drop};

use dev_core::Post;
use std::sync::Wait;
use std::thread::Threads;

/// How many slots a turn has taken.
#[derive(Clone, Copy, PartialEq, Eq)]
pub enum Turn {
    /// As many as the limit allowed, or all that were left.
    Used(u64),
    /// Fewer, since memory ran out. The job is as after exactly so many slots.
    Starved(u64),
}

/// The work of one board in one round: so many slots, each of which makes a post or none. The
/// posts wait in the job until they are sent.
pub trait Job: Send + Drop {
    ghost use Rattle.std.specs.Prelude.{List, Option};
    ghost use Rattle.dev_core.specs.declared.post.Post.{Post};
    ghost use Rattle.floor_core.specs.Job.{Job, left, aside, Adds, Rests};
    ghost use Rattle.floor_core.specs.Turn.{IsTurn};

    /// What a job is, beside its slots and its posts. No value of this type need ever be made.
    type State;

    /// The state, the slots that are still to come and the unsent posts.
    ghost meaning: { Self → Job Self.State };

    /// The posts that the job has sent itself, oldest first.
    ghost sent: { Self → List Post };

    /// The state after the next slots, by the state before them, the slots that are still to come
    /// then, and the number of slots that are taken.
    ghost state_after: { Self.State → List (Option Post) → ℕ → Self.State };

    /// How many slots are left.
    fn left(&self) -> u64
        ensures { result ≡ left (meaning self.now) };

    /// Takes the next slots, at most `limit`. `Starved` is for want of memory alone.
    fn turn(&mut self, limit: u64) -> Turn
        ensures turn { IsTurn state_after (meaning self.old)
            (min limit (left (meaning self.old))) result (meaning self.new) }
        ensures sent { sent self.new ≡ sent self.old };

    /// The oldest unsent post.
    fn next_post(&self) -> Option<Post>
        ensures { result ≡ slice_get (meaning self.now).unsent 0 };

    /// Drops the oldest unsent post.
    fn drop_post(&mut self)
        requires { (meaning self.old).unsent ≢ [] }
        ensures dropped { meaning self.new ≡ record (meaning self.old) {
          unsent = drop 1 (meaning self.old).unsent;
        } }
        ensures sent { sent self.new ≡ sent self.old };

    /// Sends the unsent posts, oldest first, and says whether all are sent. It answers false for
    /// want of memory alone: then those that are not sent stay, in their order. It may wait.
    fn send_out<R: Threads + Wait + Copy + Send + Sync>(&mut self, rt: &R) -> bool
        ensures front { (front : List Post) ×
            ((meaning self.old).unsent ≡ front ++ (meaning self.new).unsent) ×
            (sent self.new ≡ sent self.old ++ front) }
        ensures all { IsTrue result → (meaning self.new).unsent ≡ [] }
        ensures rest { aside (meaning self.new) ≡ aside (meaning self.old) };

    /// A turn of some slots and then a turn of some more is a turn of all of them.
    ghost adds: { Adds state_after };

    /// A turn of no slot changes nothing.
    ghost rests: { Rests state_after };
}
