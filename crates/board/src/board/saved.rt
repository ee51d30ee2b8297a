//! A board as a state, and brought to one.
ghost use Rattle.std.specs.Prelude.{◌≡◌, ◌<◌, length, IfOk};
ghost use Rattle.board.specs.BoardState.{board_state, brought_to};
ghost use Rattle.board.specs.Changes.{with_memory_in};
ghost use Rattle.board_space.specs.Space.{memory_at};
ghost use Rattle.board.specs.Valid.{IsBoard};
ghost use Rattle.board_space.specs.Valid.{IsStateFor};

use super::Board;
use crate::harts::{bring_all_to, sound_harts_law, states_of};
use board_space::BoardState;
use dev_core::Device;
use lab_num::{NoMemory, Rows};
use page_ram::PageRam;
use rv_atomic::Watch;
use std::alloc::Global;

/// What the processors have reserved.
fn reserved_of(alloc: Global, watch: &Watch) -> Result<Vec<Option<u32>>, NoMemory>
    ensures { IfOk result (λ words. words.items ≡ watch.now) }
{
    let mut words = Vec::new(alloc);
    for hart in 0..watch.harts() {
        words.push(watch.reserved(hart))?;
    }
    Ok(words)
}

/// Lets each processor have reserved its word, or none.
fn reserve_all(watch: &mut Watch, words: &[Option<u32>])
    requires { length words.now ≡ length watch.old }
    ensures { watch.new ≡ words.now }
{
    for hart in 0..watch.harts() {
        watch.put(hart, words[usize::from(hart)]);
    }
}

impl<D: Device> Board<D> {
    /// All that changes of the board, its memories aside. `Err` is for want of memory alone.
    pub fn state(&self) -> Result<BoardState, NoMemory>
        ensures value { IfOk result (λ s. s ≡ board_state self.now.view) }
    {
        let alloc = *self.harts.allocator();
        Ok(BoardState {
            speed: self.bus.outbox.numbers.speed,
            harts: Rows::of(states_of(alloc, &self.harts)?),
            next: self.next,
            reserved: Rows::of(reserved_of(alloc, &self.watch)?),
            clint: self.bus.space.timer_state(),
            plic: self.bus.space.controller_state(),
            devices: Rows::of(self.bus.space.states(alloc)?),
            shown: Rows::of(self.bus.space.shown(alloc)?),
            posted: self.bus.outbox.numbers.posted,
            entries: self.bus.outbox.numbers.entered,
        })
    }

    /// Brings the board to a state. Its number, its plan and its memories stay.
    pub fn put_state(&mut self, s: &BoardState)
        requires { IsStateFor self.old.view.space.plan s.now }
        ensures { self.new ≡ record self.old { view = brought_to self.old.view s.now } }
    {
        self.bus.outbox.numbers.bring_to(s);
        bring_all_to(&mut self.harts, s.harts.items());
        self.next = s.next;
        reserve_all(&mut self.watch, s.reserved.items());
        self.bus.space.bring_to(s);
    }

    /// The bytes of a memory.
    pub fn memory(&self, part: u8) -> &PageRam
        requires { part < length self.now.view.space.memories }
        ensures { result.now ≡ memory_at self.now.view.space part }
    {
        self.bus.space.memory(part)
    }

    /// Puts another memory of the same size in the place of one, and ends all reservations.
    pub fn put_memory(&mut self, part: u8, memory: PageRam)
        requires part { part < length self.old.view.space.memories }
        requires size { length memory ≡ length (memory_at self.old.view.space part) }
        ensures { self.new ≡ record self.old { view = with_memory_in self.old.view part memory } }
    {
        self.watch.clear();
        self.bus.space.put_memory(part, memory);
    }

    /// At every moment a board is one that there can be. Nothing is changed and told when this
    /// runs: a proof that needs the fact calls it.
    pub fn validity_law(&self)
        ensures { IsBoard self.now.view }
    {
        let _plan = self.bus.space.plan();
        sound_harts_law(&self.harts);
        let _controller = self.bus.space.controller_state();
        self.bus.space.shown_devices_law();
    }
}
