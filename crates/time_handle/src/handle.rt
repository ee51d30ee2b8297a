//! One board's grant.
ghost use Rattle.std.specs.Prelude.{◌≡◌, ◌+◌, ◌^◌, ◌≤◌, ◌↔◌};
ghost use Rattle.time_handle.specs.Grant as grants;

use crate::report::Report;
use lab_num::Micros;
use std::marker::Model;

/// A grant of time to one board, and how many of its slots the board has used. At most the slots
/// that the grant pays for are ever used.
#[derive(Clone, Copy)]
pub struct Handle {
    from: Micros,
    to: Micros,
    speed: u32,
    used: u64,
}

impl Model for Handle {
    ghost use Rattle.time_handle.specs.Grant.{Grant};

    ghost Value = { Grant };

    ghost use Rattle.time_handle.specs.Inner.Handle.{grant_of, handle_of, IsHandle};

    ghost view = { grant_of };

    ghost invariant = { IsHandle };

    ghost inverse = { handle_of };
}

impl Handle {
    /// A grant of the time from one microsecond to another, at a speed in slots a microsecond.
    /// Nothing of it is used.
    pub fn new(from: Micros, to: Micros, speed: u32) -> Handle
        requires order { from.0 ≤ to.0 }
        requires last { to.0 ≤ 10 ^ 10 }
        requires slowest { 1 ≤ speed }
        requires fastest { speed ≤ 1000 }
        ensures { result ≡ grants.fresh from.0 to.0 speed }
    {
        Handle {
            from,
            to,
            speed,
            used: 0,
        }
    }

    pub fn from(&self) -> Micros
        ensures value { result.0 ≡ self.now.from }
        ensures order { result.0 ≤ self.now.to }
    {
        self.from
    }

    pub fn to(&self) -> Micros
        ensures value { result.0 ≡ self.now.to }
        ensures last { result.0 ≤ 10 ^ 10 }
    {
        self.to
    }

    /// Slots a microsecond.
    pub fn speed(&self) -> u32
        ensures value { result ≡ self.now.speed }
        ensures slowest { 1 ≤ result }
        ensures fastest { result ≤ 1000 }
    {
        self.speed
    }

    /// The slots that are used so far.
    pub fn taken(&self) -> u64
        ensures value { result ≡ self.now.used }
        ensures paid { result ≤ grants.paid_by self.now }
    {
        self.used
    }

    /// The slots that are paid for and not used.
    pub fn left(&self) -> u64
        ensures value { result ≡ grants.left self.now }
        ensures rest { self.now.used + result ≡ grants.paid_by self.now }
        ensures most { result ≤ 10 ^ 13 }
    {
        (self.to.0 - self.from.0) * u64::from(self.speed) - self.used
    }

    /// The time of the board: the microsecond of its next slot, or the end of the grant where
    /// nothing is left.
    pub fn elapsed(&self) -> Micros
        ensures value { result.0 ≡ grants.elapsed self.now }
        ensures first { self.now.from ≤ result.0 }
        ensures last { result.0 ≤ self.now.to }
        ensures at_the_end { (result.0 ≡ self.now.to) ↔ (grants.left self.now ≡ 0) }
    {
        Micros(self.from.0 + self.used / u64::from(self.speed))
    }

    /// Uses `n` slots more, and says whether the grant has come to its end.
    pub fn used(&mut self, n: u64) -> Report
        requires { n ≤ grants.left self.old }
        ensures used { self.new ≡ record self.old { used = self.old.used + n } }
        ensures report { (result ≡ Report.Continue) ↔ (grants.left self.new ≡ 0) }
    {
        self.used += n;
        if self.left() == 0 {
            Report::Continue
        } else {
            Report::Break
        }
    }
}
