//! Jobs that know when their slots lie.

use floor_core::Job;

/// A job that knows when its next slot lies, and can pass over idle ones.
pub trait Timed: Job {
    ghost use Rattle.std.specs.Prelude.{◌≡◌, ◌<◌, ◌≤◌, ℕ, List, Option, length, min};
    ghost use Rattle.dev_core.specs.declared.post.Post.{Post};
    ghost use Rattle.floor_core.specs.Job.{left, after};
    ghost use Rattle.probe_jobs.specs.Course.{AreIdle};

    /// When the next slot lies, if any is left.
    ghost time: { Self.State → ℕ };

    /// The state after so many idle slots.
    ghost idled: { Self.State → ℕ → Self.State };

    /// When the next slot lies.
    fn time(&self) -> u64
        requires { 0 < left (Self.meaning self.now) }
        ensures { result ≡ time (Self.meaning self.now).state };

    /// Passes over the idle slots that come next, at most `limit`, and says how many. It may leave some, and passes
    /// over none where it does not know the next one to be idle.
    fn pass(&mut self, limit: u64) -> u64
        ensures most { result ≤ min limit (left (Self.meaning self.old)) }
        ensures idle { 0 < result → AreIdle Self.state_after idled (Self.meaning self.old) result }
        ensures passed { Self.meaning self.new ≡ after Self.state_after (Self.meaning self.old) result }
        ensures sent { Self.sent self.new ≡ Self.sent self.old }
        ensures none { result ≡ 0 → self.new ≡ self.old };

    /// A later slot lies no earlier.
    ghost rises: { (s : Self.State) (coming : List (Option Post)) (n : ℕ) → n < length coming →
        time s ≤ time (Self.state_after s coming n) };
}
