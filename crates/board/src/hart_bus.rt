//! The bus of the processor that takes a slot, and what the board makes by it.
ghost use Rattle.std.specs.Prelude.{◌≡◌, ◌+◌, ◌^◌, ◌<◌, ◌≤◌, [], length, map, IfOk, OnOk, OnErr};
ghost use Rattle.std.specs.Vec.{vec_len, vec_capacity};
ghost use Rattle.dev_core.specs.declared.post.What.TheVariants.{Read};
ghost use Rattle.page_ram.specs.Access.{IsInOnePage};
ghost use Rattle.page_ram.specs.Bytes.{zeros};
ghost use Rattle.rv_exec.specs.Access.{IsAccess, IsWidth};
ghost use Rattle.sys_bus.specs.declared.region.Target.TheVariants.{Ram, Dev};
ghost use Rattle.board.specs.HartBus.{fetched, answer, loaded, stored, stored_to, entered};
ghost use Rattle.board_space.specs.New.{first_states, new_space};
ghost use Rattle.board.specs.New.{new_numbers};
ghost use Rattle.board_space.specs.Space.{memory_at};
ghost use Rattle.sys_bus.specs.Plan.{IsValid};

use crate::outbox::Outbox;
use board_space::{Parts, Space, regions_and_memories};
use dev_core::{Device, Effect, What};
use lab_num::{BoardNo, Micros, NoMemory};
use rv_exec::Bus;
use std::alloc::Global;
use std::marker::Model;
use sys_bus::{BoardPlan, Target};

/// What a board has but its processors, whose turn is next and what they have reserved.
#[derive(Drop)]
pub struct HartBus<D: Device> {
    pub outbox: Outbox,
    pub space: Space<D>,
    /// The microsecond of the slot.
    pub at: Micros,
}

impl<D: Device> Model for HartBus<D> {
    ghost use Rattle.board.specs.HartBus.{HartBus as Seen};

    ghost Value = { Seen };

    ghost view = { λ w. record {
      numbers = w.outbox.numbers;
      space = w.space;
      at = w.at.0;
      posts = w.outbox.posts.items;
      entries = w.outbox.entries.items;
    } };
}

/// What a new board takes memory for.
#[derive(Drop)]
pub struct Rooms<D: Device> {
    outbox: Outbox,
    parts: Parts<D>,
}

impl<D: Device> Rooms<D> {
    /// That of a board of this number and plan, with so many devices.
    pub fn new(
        alloc: Global,
        number: BoardNo,
        plan: &BoardPlan,
        devices: usize,
    ) -> Result<Rooms<D>, NoMemory>
        requires { IsValid plan.now }
        ensures numbers { IfOk result (λ rooms. rooms.outbox.numbers ≡ new_numbers number.0 plan.now) }
        ensures posts { IfOk result (λ rooms. rooms.outbox.posts.items ≡ []) }
        ensures entries { IfOk result (λ rooms. rooms.outbox.entries.items ≡ []) }
        ensures regions { IfOk result (λ rooms. rooms.parts.regions ≡ plan.now.regions) }
        ensures memories { IfOk result (λ rooms. rooms.parts.memories.items ≡ map zeros plan.now.memories) }
        ensures devices { IfOk result (λ rooms. rooms.parts.devices.items ≡ []) }
        ensures room { IfOk result (λ rooms. devices ≤ vec_capacity rooms.parts.devices) }
    {
        let outbox = Outbox::new(alloc, number, plan.speed)?;
        let devices = Vec::with_capacity(alloc, devices)?;
        let (regions, memories) = regions_and_memories(alloc, plan)?;
        Ok(Rooms {
            outbox,
            parts: Parts {
                regions,
                memories,
                devices,
            },
        })
    }
}

impl<D: Device> HartBus<D> {
    /// What a new board of the plan has at lab time 0, of the rooms that were made for the plan.
    pub fn new(plan: BoardPlan, rooms: Rooms<D>, devices: Vec<D>) -> HartBus<D>
        requires plan { IsValid plan }
        requires posts { rooms.outbox.posts.items ≡ [] }
        requires entries { rooms.outbox.entries.items ≡ [] }
        requires regions { rooms.parts.regions ≡ plan.regions }
        requires memories { rooms.parts.memories.items ≡ map zeros plan.memories }
        requires none { rooms.parts.devices.items ≡ [] }
        requires room { vec_len devices ≤ vec_capacity rooms.parts.devices }
        requires devices { map D.meaning devices.items ≡ first_states plan }
        ensures { result ≡ record {
          numbers = rooms.outbox.numbers;
          space = new_space plan;
          at = 0;
          posts = [];
          entries = [];
        } }
    {
        HartBus {
            outbox: rooms.outbox,
            space: Space::new(plan, rooms.parts, devices),
            at: Micros(0),
        }
    }

    /// Begins a slot, in this microsecond.
    pub fn begin_slot(&mut self, at: Micros)
        ensures { self.new ≡ record self.old { at = at.0 } }
    {
        self.at = at;
    }

    /// Notes something for the log.
    #[cold]
    #[inline(never)]
    fn enter(&mut self, note: What) -> Result<(), NoMemory>
        ensures ok { OnOk result (self.new ≡ entered self.old note) }
        ensures err { OnErr result (self.new ≡ self.old) }
    {
        self.outbox.enter(self.at, note)
    }

    /// Stores in a device, and does what it makes the device do. After an `Err` the device is as
    /// before.
    #[tactic(auto, unfolding(crate::specs::HartBus::sent))]
    fn store_in_device(&mut self, dev: u8, at: u32, width: u8, value: u32) -> Result<(), NoMemory>
        requires { dev < length self.old.space.devices }
        ensures ok { OnOk result (self.new ≡ stored_to self.old at width value (Dev dev at)) }
        ensures err { OnErr result (self.new ≡ self.old) }
    {
        if !self.outbox.has_room() {
            return self.store_without_room(dev, at, width, value);
        }
        if let Effect::Send(payload) = self.space.store_device(dev, at, width, value) {
            self.outbox
                .send(self.at, dev, &payload, self.space.is_shown(dev));
        }
        Ok(())
    }

    /// The same where there is no room for all that the device may send. Its state is kept, since
    /// room is made only once it is known to send.
    #[cold]
    #[inline(never)]
    fn store_without_room(
        &mut self,
        dev: u8,
        at: u32,
        width: u8,
        value: u32,
    ) -> Result<(), NoMemory>
        requires { dev < length self.old.space.devices }
        ensures ok { OnOk result (self.new ≡ stored_to self.old at width value (Dev dev at)) }
        ensures err { OnErr result (self.new ≡ self.old) }
    {
        let before = self.space.state(dev);
        let Effect::Send(payload) = self.space.store_device(dev, at, width, value) else {
            return Ok(());
        };
        if self.outbox.make_room().is_err() {
            self.space.put_back(dev, &before);
            return Err(NoMemory);
        }
        self.outbox
            .send(self.at, dev, &payload, self.space.is_shown(dev));
        Ok(())
    }

    /// A load that is not known to lie in a memory.
    #[inline(never)]
    #[tactic(auto, unfolding(crate::specs::HartBus::loaded))]
    fn load_anew(&mut self, at: u32, width: u8) -> Result<u32, NoMemory>
        requires { IsAccess at width }
        ensures answer { IfOk result (λ value. value ≡ answer self.old at width) }
        ensures fits { IfOk result (λ value. value < 256 ^ width) }
        ensures ok { OnOk result (self.new ≡ loaded self.old at width) }
        ensures err { OnErr result (self.new ≡ self.old) }
    {
        match self.space.find_data(at, width) {
            Target::Ram { part, at } => Ok(self.space.load_memory(part, at, width)),
            Target::Dev { dev, at } => Ok(self.space.load_device(dev, at, width)),
            Target::Clint { at } => Ok(self.space.load_timer(self.at, at, width)),
            Target::Plic { at } => Ok(self.space.load_controller(at, width)),
            Target::Nothing => self.load_nothing(at, width),
        }
    }

    /// A load that reaches nothing answers 0, and is noted.
    fn load_nothing(&mut self, at: u32, width: u8) -> Result<u32, NoMemory>
        ensures answer { IfOk result (λ value. value ≡ 0) }
        ensures ok { OnOk result (self.new ≡ entered self.old (Read width at)) }
        ensures err { OnErr result (self.new ≡ self.old) }
    {
        self.enter(What::Read { width, at })?;
        Ok(0)
    }

    /// Stores in a memory. After an `Err` it is as before.
    #[inline(always)]
    fn store_in_memory(&mut self, part: u8, at: u32, width: u8, value: u32) -> Result<(), NoMemory>
        requires width { IsWidth width }
        requires part { part < length self.old.space.memories }
        requires lies { at + width ≤ length (memory_at self.old.space part) }
        requires page { IsInOnePage at width }
        ensures ok { OnOk result (self.new ≡ stored_to self.old at width value (Ram part at)) }
        ensures err { OnErr result (self.new ≡ self.old) }
    {
        let Ok(()) = self.space.store_memory(part, at, width, value) else {
            return Err(NoMemory);
        };
        Ok(())
    }

    /// A store that is not known to lie in a memory.
    #[inline(never)]
    #[tactic(auto, unfolding(crate::specs::HartBus::stored))]
    fn store_anew(&mut self, at: u32, width: u8, value: u32) -> Result<(), NoMemory>
        requires { IsAccess at width }
        ensures ok { OnOk result (self.new ≡ stored self.old at width value) }
        ensures err { OnErr result (self.new ≡ self.old) }
    {
        match self.space.find_data(at, width) {
            Target::Ram { part, at } => self.store_in_memory(part, at, width, value),
            Target::Dev { dev, at } => self.store_in_device(dev, at, width, value),
            Target::Clint { at } => {
                self.space.store_timer(self.at, at, width, value);
                Ok(())
            }
            Target::Plic { at } => {
                self.space.store_controller(at, width, value);
                Ok(())
            }
            Target::Nothing => self.enter(What::Write { width, at, value }),
        }
    }
}

impl<D: Device> Bus for HartBus<D> {
    ghost fetched = { fetched };

    ghost answer = { answer };

    ghost loaded = { loaded };

    ghost stored = { stored };

    #[inline(always)]
    fn fetch(&mut self, at: u32) -> Option<u32> {
        self.space.fetch(at)
    }

    #[inline(always)]
    #[tactic(auto, unfolding(crate::specs::HartBus::loaded))]
    fn load(&mut self, at: u32, width: u8) -> Result<u32, NoMemory> {
        match self.space.near_data(at) {
            Some(place) => Ok(self.space.load_memory(place.part, place.at, width)),
            // taken apart, so that no tag is tested where a memory is near
            None => Ok(self.load_anew(at, width)?),
        }
    }

    #[inline(always)]
    #[tactic(auto, unfolding(crate::specs::HartBus::stored))]
    fn store(&mut self, at: u32, width: u8, value: u32) -> Result<(), NoMemory> {
        match self.space.near_data(at) {
            Some(place) => self.store_in_memory(place.part, place.at, width, value),
            None => self.store_anew(at, width, value),
        }
    }
}
