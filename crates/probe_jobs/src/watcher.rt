//! Who watches the jobs of a round.

use crate::slot::Slot;
use crate::timed::Timed;

/// Who is shown the jobs of a round before each of their slots. What it is told is what it `requires`: so whoever runs
/// the jobs has to show each slot, in order of time, and the jobs as they stand then.
pub trait Watcher<J: Timed> {
    ghost use Rattle.std.specs.Prelude.{◌≡◌, length};
    ghost use Rattle.std.specs.List.{AllZip};
    ghost use Rattle.probe_jobs.specs.Course.{Partly};
    ghost use Rattle.probe_jobs.specs.Next.{IsNext, NoneBefore};
    ghost use Rattle.probe_jobs.specs.Told.{Told, Follow, HavePassed, first, shown, passed};

    /// What it was told last.
    ghost told: { Self → Told J };

    /// Whether it wants to be shown anything at all.
    fn drives(&self) -> bool;

    /// Is shown the jobs before the first of their slots.
    fn begin(&mut self, jobs: &Vec<J>)
        ensures { told self.new ≡ first jobs.now.items };

    /// Is shown the jobs before their next slot. No slot that is left lies before the last one that it was told of.
    /// The jobs have taken the slots that it was told of, and no others. Each of them is as after so many slots, with
    /// its posts sent, whoever takes them. The jobs are a `Vec`, so that who wants to can keep a `Snapshot` of them.
    fn before(&mut self, slot: Slot, jobs: &Vec<J>)
        requires next { IsNext J.meaning J.time slot jobs.now.items (length jobs.now.items) }
        requires rising { NoneBefore J.meaning J.time (told self.old).last jobs.now.items (length jobs.now.items) }
        requires follow { Follow J.meaning J.sent J.state_after (told self.old) jobs.now.items }
        requires stand { AllZip (Partly J.meaning J.sent J.state_after) (told self.old).began jobs.now.items }
        ensures { told self.new ≡ shown (told self.old) slot jobs.now.items };

    /// Is told that the job in the place of `slot` has passed over so many idle slots, of which this one came next.
    fn passed(&mut self, slot: Slot, slots: u64, jobs: &Vec<J>)
        requires passed { HavePassed J.meaning J.sent J.state_after J.time J.idled (told self.old) slot slots
            jobs.now.items }
        requires stand { AllZip (Partly J.meaning J.sent J.state_after) (told self.old).began jobs.now.items }
        ensures { told self.new ≡ passed (told self.old) slot jobs.now.items };
}
