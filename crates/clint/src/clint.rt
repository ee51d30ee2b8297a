//! The CLINT and its registers.
ghost use Rattle.std.specs.Prelude.{◌≡◌, ◌≤◌, ◌<◌};

use crate::counter::{all_ticks, counter, micros_until, offset_for};
use crate::registers::*;
use crate::state::ClintState;
use lab_num::{Micros, high_half, low_half, with_high_half, with_low_half};
use std::marker::Model;

/// Where the counter wraps: it shows 0 in place of this.
const WRAP: u128 = 1 << 64;

/// The width of the accesses that the registers answer, in bytes.
const WORD: u8 = 4;

/// A CLINT, which contracts see as the frequency of its counter and its state.
#[derive(Drop)]
pub struct Clint {
    frequency: u32,
    state: ClintState,
}

impl Model for Clint {
    ghost use Rattle.std.specs.Prelude.{◌≤◌};
    ghost use Rattle.clint.specs.Clint.{Timer};

    ghost Value = { Timer };

    ghost view = { λ c. record { frequency = c.frequency; state = c.state } };

    ghost invariant = { λ c. (1 ≤ c.frequency) × (c.frequency ≤ 1000000000) };
}

impl Clint {
    ghost use Rattle.clint.specs.Clint.{
      clint_load,
      clint_reset,
      clint_stored,
      mtime,
      mtime_stored,
      showing,
      software_line,
      timer_line,
    };
    ghost use Rattle.clint.specs.FirstChange.{IsFirstChange, IsStill};

    /// A CLINT in its reset state, whose counter rises so many times in a second.
    pub fn new(frequency: u32) -> Clint
        requires at_least { 1 ≤ frequency }
        requires at_most { frequency ≤ 1000000000 }
        ensures { result ≡ record { frequency = frequency; state = clint_reset } }
    {
        Clint {
            frequency,
            state: ClintState::reset(),
        }
    }

    /// The counter at a time.
    pub fn mtime(&self, now: Micros) -> u64
        ensures { result ≡ mtime self.now now.0 }
    {
        counter(self.state.offset, self.frequency, now.0)
    }

    /// The line of the software interrupt.
    pub fn software(&self) -> bool
        ensures { result ≡ software_line self.now }
    {
        self.state.msip
    }

    /// The line of the timer interrupt at a time.
    pub fn timer(&self, now: Micros) -> bool
        ensures { result ≡ timer_line self.now now.0 }
    {
        self.mtime(now) >= self.state.mtimecmp
    }

    /// The first microsecond from `now` on at which the line of the timer interrupt is not as it is
    /// at `now`, or `last` if there is none below `last`.
    pub fn idle_until(&self, now: Micros, last: Micros) -> Micros
        requires { now.0 ≤ last.0 }
        ensures { IsFirstChange self.now now.0 last.0 result.0 }
    {
        let line = self.timer(now);
        let mut at = now.0;
        while at < last.0 {
            let next = self.stays_until(at);
            if next >= u128::from(last.0) {
                return last;
            }
            at = next as u64;
            if self.timer(Micros(at)) != line {
                return Micros(at);
            }
        }
        last
    }

    /// A later microsecond, before which the line of the timer interrupt stays: the first one at
    /// which the counter has come to `mtimecmp` if it is below that, and else to where it wraps.
    fn stays_until(&self, now: u64) -> u128
        ensures later { now < result }
        ensures still { IsStill self.now now result }
    {
        let shown = self.mtime(Micros(now));
        let compared = self.state.mtimecmp;
        let left = if shown < compared {
            u128::from(compared - shown)
        } else {
            WRAP - u128::from(shown)
        };
        micros_until(self.frequency, all_ticks(self.frequency, now) + left)
    }

    /// A load of `width` bytes at an offset within the CLINT. It gives 0 where no register is.
    #[tactic(auto, unfolding(crate::specs::Clint::clint_load))]
    pub fn load(&self, at: u32, width: u8, now: Micros) -> u32
        ensures { result ≡ clint_load self.now at width now.0 }
    {
        if width != WORD {
            return 0;
        }
        match at {
            MSIP => u32::from(self.state.msip),
            MTIMECMP_LOW => low_half(self.state.mtimecmp),
            MTIMECMP_HIGH => high_half(self.state.mtimecmp),
            MTIME_LOW => low_half(self.mtime(now)),
            MTIME_HIGH => high_half(self.mtime(now)),
            _ => 0,
        }
    }

    /// Makes the counter show a value at a time.
    fn set_mtime(&mut self, value: u64, now: Micros)
        ensures after { self.new ≡ record self.old { state = showing self.old now.0 value } }
        ensures shown { mtime self.new now.0 ≡ value }
    {
        self.state.offset = offset_for(value, self.frequency, now.0);
    }

    /// A store of the lowest `width` bytes of a value at an offset within the CLINT. It does
    /// nothing where no register is.
    #[tactic(auto, unfolding(crate::specs::Clint::clint_stored, crate::specs::Clint::mtime_stored))]
    pub fn store(&mut self, at: u32, width: u8, value: u32, now: Micros)
        ensures after { self.new ≡ record self.old { state = clint_stored self.old at width value now.0 } }
        ensures counted { mtime self.new now.0 ≡ mtime_stored self.old at width value now.0 }
    {
        if width != WORD {
            return;
        }
        match at {
            MSIP => self.state.msip = value & 1 == 1,
            MTIMECMP_LOW => self.state.mtimecmp = with_low_half(self.state.mtimecmp, value),
            MTIMECMP_HIGH => self.state.mtimecmp = with_high_half(self.state.mtimecmp, value),
            MTIME_LOW => self.set_mtime(with_low_half(self.mtime(now), value), now),
            MTIME_HIGH => self.set_mtime(with_high_half(self.mtime(now), value), now),
            _ => {}
        }
    }

    /// Puts the CLINT in its reset state. Its frequency stays.
    pub fn reset(&mut self)
        ensures { self.new ≡ record self.old { state = clint_reset } }
    {
        self.state = ClintState::reset();
    }

    pub fn state(&self) -> ClintState
        ensures { result ≡ self.now.state }
    {
        self.state
    }

    pub fn put(&mut self, state: &ClintState)
        ensures { self.new ≡ record self.old { state = state.now } }
    {
        self.state = *state;
    }
}
