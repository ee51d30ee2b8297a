//! Gates of the tests.
use floor_run::Gate;
use lab_num::BoardNo;
use std::hint::spin_loop;
use std::sync::atomic::{AtomicBool, AtomicU64, Ordering};

/// A gate that counts how often it is entered, for one board that tells it when a turn begins.
#[derive(Drop)]
pub struct Turnstile {
    entered: AtomicU64,
    begun: AtomicU64,
    slipped_by: AtomicBool,
}

impl Turnstile {
    pub fn new() -> Turnstile {
        Turnstile {
            entered: AtomicU64::new(0),
            begun: AtomicU64::new(0),
            slipped_by: AtomicBool::new(false),
        }
    }

    /// The board's next turn begins.
    pub fn begin_turn(&self) {
        if self.begun.fetch_add(1, Ordering::SeqCst) >= self.entered.load(Ordering::SeqCst) {
            self.slipped_by.store(true, Ordering::SeqCst);
        }
    }

    pub fn entered(&self) -> u64 {
        self.entered.load(Ordering::SeqCst)
    }

    /// How many turns have begun.
    pub fn begun(&self) -> u64 {
        self.begun.load(Ordering::SeqCst)
    }

    /// Whether a turn has begun before the gate was entered for it.
    pub fn slipped_by(&self) -> bool {
        self.slipped_by.load(Ordering::SeqCst)
    }
}

impl Gate for Turnstile {
    fn enter(&self, _board: BoardNo) {
        self.entered.fetch_add(1, Ordering::SeqCst);
    }
}

/// A gate that holds each of so many turns, but the last, until the next one enters. An `enter` that
/// has looked 100,000,000 times in vain gives up, and no further one is held.
///
/// Two workers on two boards of as many turns each: while one is held, its board is out, so the other
/// goes over both boards and wins none but its own.
#[derive(Drop)]
pub struct Relay {
    turns: u64,
    entered: AtomicU64,
    gave_up: AtomicBool,
}

impl Relay {
    pub fn new(turns: u64) -> Relay {
        Relay {
            turns,
            entered: AtomicU64::new(0),
            gave_up: AtomicBool::new(false),
        }
    }

    pub fn entered(&self) -> u64 {
        self.entered.load(Ordering::SeqCst)
    }

    /// Whether an `enter` has given up.
    pub fn gave_up(&self) -> bool {
        self.gave_up.load(Ordering::SeqCst)
    }
}

impl Gate for Relay {
    fn enter(&self, _board: BoardNo) {
        let before = self.entered.fetch_add(1, Ordering::SeqCst);
        let awaited = before.saturating_add(2).min(self.turns);
        for _ in 0..100_000_000_u64 {
            if self.entered() >= awaited || self.gave_up() {
                return;
            }
            spin_loop();
        }
        self.gave_up.store(true, Ordering::SeqCst);
    }
}

/// A gate that holds each one who enters until another comes: two and two go on together. An `enter`
/// that has looked 100,000,000 times in vain gives up.
#[derive(Drop)]
pub struct Pairs {
    entered: AtomicU64,
    gave_up: AtomicBool,
}

impl Pairs {
    pub fn new() -> Pairs {
        Pairs {
            entered: AtomicU64::new(0),
            gave_up: AtomicBool::new(false),
        }
    }

    pub fn entered(&self) -> u64 {
        self.entered.load(Ordering::SeqCst)
    }

    /// Whether an `enter` has given up.
    pub fn gave_up(&self) -> bool {
        self.gave_up.load(Ordering::SeqCst)
    }
}

impl Gate for Pairs {
    fn enter(&self, _board: BoardNo) {
        let before = self.entered.fetch_add(1, Ordering::SeqCst);
        let awaited = (before | 1).saturating_add(1);
        for _ in 0..100_000_000_u64 {
            if self.entered() >= awaited {
                return;
            }
            spin_loop();
        }
        self.gave_up.store(true, Ordering::SeqCst);
    }
}
