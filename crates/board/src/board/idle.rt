//! Idle slots, which are passed over.
ghost use Rattle.std.specs.Prelude.{◌≡◌, ℕ, ◌+◌, ◌%◌, ◌/◌, ◌<◌, ◌≤◌, ◌^◌, true, length, All, IsTrue};
ghost use Rattle.board.specs.Idle.{IsIdle, is_idle, passed};
ghost use Rattle.board_space.specs.Lines.{is_wired};
ghost use Rattle.board_space.specs.Lines.{sampled, timer_up, mip_of};
ghost use Rattle.board.specs.Stretch.{stretch};
ghost use Rattle.board.specs.View.{after, core_at, quiet};

use super::{Board, SlotAt};
use crate::harts::{is_idle, pass_cycles};
use dev_core::Device;
use lab_num::Micros;

impl<D: Device> Board<D> {
    /// Passes over the next slots, at most `n`, as far as they are known to be idle, and says how many. They are the
    /// slots that a turn would take, and all that they do is to count cycles. At 0 the next slot may be idle or not.
    pub fn pass(&mut self, at: SlotAt, n: u64) -> u64
        requires time { at.from.0 + (at.first + n) / self.old.view.numbers.speed ≤ 10000000000 }
        ensures most { result ≤ n }
        ensures run { self.new ≡ after self.old (stretch self.old.view at.from.0 at.first result) }
        ensures idle { 0 < result → stretch self.old.view at.from.0 at.first result
            ≡ quiet (passed self.old.view result) }
        ensures none { result ≡ 0 → self.new ≡ self.old }
    {
        let wired = self.bus.space.is_wired();
        self.pass_idle(wired, at, 0, n)
    }

    /// Passes over idle slots, of those from slot `i` of the call on: up to the first one in the
    /// microsecond in which the line of the timer interrupt changes, or to the end of the call. The
    /// answer is how many, and 0 where the next slot may not be idle.
    #[cold]
    #[inline(never)]
    pub(super) fn pass_idle(&mut self, wired: bool, at: SlotAt, i: u64, n: u64) -> u64
        requires time { at.from.0 + (at.first + n) / self.old.view.numbers.speed ≤ 10000000000 }
        requires wired { wired ≡ is_wired self.old.view.space.plan }
        requires within { i ≤ n }
        ensures most { i + result ≤ n }
        ensures run { self.new ≡ after self.old
            (stretch self.old.view at.from.0 (at.first + i) result) }
        ensures idle { 0 < result → stretch self.old.view at.from.0 (at.first + i) result
            ≡ quiet (passed self.old.view result) }
        ensures none { result ≡ 0 → self.new ≡ self.old }
    {
        let speed = u64::from(self.speed());
        let next = at.first + i;
        let now = Micros(at.from.0 + next / speed);
        if !self.are_idle(wired, now) {
            return 0;
        }
        // the microsecond after the last one, so that the slots of the last one are passed over too
        let end = Micros(at.from.0 + (at.first + n) / speed + 1);
        let until = self.timer_stays_until(now, end);
        let stop = u64::min((until.0 - at.from.0) * speed, at.first + n);
        if stop < next {
            return 0;
        }
        self.let_pass(stop - next);
        stop - next
    }

    /// Whether it is known that each processor is halted or goes on waiting, where the line of the
    /// timer interrupt is as in this microsecond.
    fn are_idle(&mut self, wired: bool, now: Micros) -> bool
        requires { wired ≡ is_wired self.old.view.space.plan }
        ensures idle { result ≡ true → IsIdle self.old.view (timer_up self.old.view.space.timer now.0) }
        ensures same { self.new ≡ self.old }
    {
        let count = self.plan().cpus.items().len() as u8;
        for hart in 0..count {
            if !self.is_idle(wired, hart, now) {
                return false;
            }
        }
        true
    }

    /// The same of one processor.
    fn is_idle(&mut self, wired: bool, hart: u8, now: Micros) -> bool
        requires wired { wired ≡ is_wired self.old.view.space.plan }
        requires hart { hart < length self.old.view.cores }
        ensures settled { result ≡ true → sampled self.old.view.space ≡ self.old.view.space }
        ensures idle { result ≡ true → IsTrue (is_idle (core_at self.old.view hart)
            (mip_of self.old.view.space (timer_up self.old.view.space.timer now.0) hart)) }
        ensures same { self.new ≡ self.old }
    {
        match self.bus.space.known_lines(wired, hart, now) {
            Some(lines) => is_idle(&self.harts[usize::from(hart)], lines.mip),
            None => false,
        }
    }

    /// A microsecond until which the line of the timer interrupt is as it is now.
    fn timer_stays_until(&self, now: Micros, last: Micros) -> Micros
        requires { now.0 ≤ last.0 }
        ensures from { now.0 ≤ result.0 }
        ensures until { result.0 ≤ last.0 }
        ensures still { (t : ℕ) → now.0 ≤ t → t < result.0 →
            timer_up self.now.view.space.timer t ≡ timer_up self.now.view.space.timer now.0 }
    {
        self.bus.space.timer_stays_until(now, last)
    }

    /// Lets so many slots pass.
    fn let_pass(&mut self, slots: u64)
        ensures after { self.new ≡ record self.old { view = passed self.old.view slots } }
        ensures fits { All (λ core. core.mcycle < 2 ^ 64) self.old.view.cores }
        ensures next { self.old.view.next < length self.old.view.cores }
    {
        pass_cycles(&mut self.harts, u64::from(self.next), slots);
        self.skip(slots);
    }

    /// Moves the turn on by so many slots.
    pub(super) fn skip(&mut self, slots: u64)
        ensures { self.new ≡ record self.old {
          view = record self.old.view {
            next = (self.old.view.next + slots) % length self.old.view.cores;
          };
        } }
    {
        let count = self.plan().cpus.items().len() as u64;
        self.next = ((u64::from(self.next) + slots % count) % count) as u8;
    }
}
