//! A place where threads wait for each other.
use floor_run::Gate;
use lab_num::BoardNo;
use std::hint::spin_loop;
use std::sync::atomic::{AtomicBool, AtomicU64, Ordering};

/// Holds each one who comes until so many have come. One who has looked 100,000,000 times in vain gives up, and no
/// further one is held.
#[derive(Drop)]
pub struct Meeting {
    awaited: u64,
    come: AtomicU64,
    gave_up: AtomicBool,
}

impl Meeting {
    pub fn of(awaited: u64) -> Meeting {
        Meeting {
            awaited,
            come: AtomicU64::new(0),
            gave_up: AtomicBool::new(false),
        }
    }

    /// Comes, and waits for the others.
    pub fn come(&self) {
        self.come.fetch_add(1, Ordering::SeqCst);
        for _ in 0..100_000_000_u64 {
            if self.count() >= self.awaited || self.gave_up.load(Ordering::SeqCst) {
                return;
            }
            spin_loop();
        }
        self.gave_up.store(true, Ordering::SeqCst);
    }

    /// How many have come so far.
    pub fn count(&self) -> u64 {
        self.come.load(Ordering::SeqCst)
    }

    /// Whether as many have come as were awaited, and nobody has given up.
    pub fn have_met(&self) -> bool {
        self.count() >= self.awaited && !self.gave_up.load(Ordering::SeqCst)
    }
}

impl Gate for Meeting {
    fn enter(&self, _board: BoardNo) {
        self.come();
    }
}
