//! No watcher.

use crate::slot::Slot;
use crate::timed::Timed;
use crate::watcher::Watcher;
use std::alloc::Global;
use std::snapshot::Snapshot;

/// Who watches nothing, so that a round goes the ways that it goes without a watcher.
#[derive(Drop)]
pub struct Unwatched<J> {
    began: Snapshot<Vec<J>>,
    jobs: Snapshot<Vec<J>>,
    last: Snapshot<Slot>,
    slots: Snapshot<u8>,
}

impl<J: Drop> Unwatched<J> {
    pub fn new(alloc: Global) -> Unwatched<J> {
        let none = Vec::new(alloc);
        Unwatched {
            began: Snapshot::of(&none),
            jobs: Snapshot::of(&none),
            last: Snapshot::of(&Slot { at: 0, place: 0 }),
            slots: Snapshot::of(&0),
        }
    }
}

impl<J: Timed> Watcher<J> for Unwatched<J> {
    ghost use Rattle.std.specs.Prelude.{◌≡◌};

    ghost told = { λ w. record {
      began = w.began.value.items;
      jobs = w.jobs.value.items;
      last = w.last.value;
      slots = w.slots.value;
    } };

    fn drives(&self) -> bool {
        false
    }

    fn begin(&mut self, jobs: &Vec<J>) {
        self.began = Snapshot::of(jobs);
        self.jobs = Snapshot::of(jobs);
        self.last = Snapshot::of(&Slot { at: 0, place: 0 });
        self.slots = Snapshot::of(&0);
    }

    fn before(&mut self, slot: Slot, jobs: &Vec<J>) {
        self.jobs = Snapshot::of(jobs);
        self.last = Snapshot::of(&slot);
        self.slots = Snapshot::of(&1);
    }

    fn passed(&mut self, slot: Slot, _slots: u64, jobs: &Vec<J>) {
        self.jobs = Snapshot::of(jobs);
        self.last = Snapshot::of(&slot);
        self.slots = Snapshot::of(&0);
    }
}
