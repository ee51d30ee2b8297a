//! The board, and what may be asked and changed of it.
ghost use Rattle.std.specs.Prelude.{◌≡◌, ◌≢◌, ℕ, ◌+◌, ◌/◌, ◌%◌, ◌==◌, ◌<◌, ◌≤◌, ◌^◌, ◌||◌, [], true, length, drop};
ghost use Rattle.std.specs.List.{list_all, range_with_len};
ghost use Rattle.std.specs.Prelude.{map, All, slice_get, slice_index_or, OnOk, OnErr, IfOk, IfErr, IsTrue};

mod idle;
mod saved;
mod slots;

use crate::hart_bus::{HartBus, Rooms};
use crate::harts::{all_asleep, all_halted, new_harts, reset_all};
use crate::slot::Features;
use dev_core::{Device, Entry, Payload, Post, Taken};
use lab_num::{BoardNo, Micros, NoMemory};
use rv_atomic::Watch;
use rv_hart::Hart;
use slots::{SHARED, UNWIRED, UNWIRED_HALVES, WIRED, WIRED_HALVES};
use std::alloc::Global;
use std::marker::Model;
use std::mem;
use sys_bus::BoardPlan;

/// Where a turn begins: slot `first` of the grant that begins at microsecond `from`.
#[derive(Clone, Copy)]
pub struct SlotAt {
    pub from: Micros,
    pub first: u64,
}

/// How many slots a turn has taken.
#[derive(Clone, Copy, PartialEq, Eq)]
pub enum Turn {
    /// All that were asked for.
    Used(u64),

    /// Fewer, since memory ran out. The board is as after exactly so many slots.
    Starved(u64),
}

/// A board, which takes one slot after another. Its devices are those that it was made with: they
/// are seen as their states, in the order of the plan.
#[derive(Drop)]
pub struct Board<D: Device> {
    /// The processors of the plan, in its order.
    harts: Vec<Hart>,
    /// The number of the one that takes the next slot.
    next: u8,
    watch: Watch,
    bus: HartBus<D>,
}

impl<D: Device> Model for Board<D> {
    ghost use Rattle.board.specs.Inner.Holds.{Holds, state_of};
    ghost use Rattle.board.specs.View.{State};

    ghost Value = { State };

    ghost view = { λ b. state_of b.harts.items b.next b.watch b.bus };

    ghost invariant = { λ b. Holds (state_of b.harts.items b.next b.watch b.bus).view };
}

impl<D: Device> Board<D> {
    ghost use Rattle.dev_core.specs.Device.{kind_of, IsValid as IsValidState};
    ghost use Rattle.dev_core.specs.declared.kind.Kind.TheVariants.{Finisher};
    ghost use Rattle.sys_bus.specs.Plan.{IsValid};
    ghost use Rattle.board_space.specs.New.{first_states};
    ghost use Rattle.board.specs.New.{new_board, reset};
    ghost use Rattle.board.specs.Changes.{with_pc, with_halted, with_speed, with_shown, may_be_shown, with_bytes};
    ghost use Rattle.board.specs.Changes.{WritesPrefix, word_held, taken_by, handed};
    ghost use Rattle.board_space.specs.Changes.{holds_each};
    ghost use Rattle.board_space.specs.Space.{device_at};
    ghost use Rattle.board.specs.View.{core_at, quiet};
    ghost use Rattle.page_ram.specs.Bytes.{zeros};
    ghost use Rattle.rv_hart.specs.Core.{alignment, reg};
    ghost use Rattle.board.specs.Stretch.{IsTurn};

    /// A board of this number by a plan, at lab time 0, with devices in their reset states and in
    /// the plan's order. Memories are 0, the pc is 0, and no device is shown. `Err` is for want of
    /// memory alone, and gives the devices back in their order.
    pub fn new(
        alloc: Global,
        number: BoardNo,
        plan: BoardPlan,
        devices: Vec<D>,
    ) -> Result<Board<D>, Vec<D>>
        requires plan { IsValid plan }
        requires devices { map D.meaning devices.items ≡ first_states plan }
        ensures state { IfOk result (λ board. board ≡ quiet (new_board number.0 plan)) }
        ensures back { IfErr result (λ back. back.items ≡ devices.items) }
    {
        let count = plan.cpus.items().len() as u8;
        let Ok(harts) = new_harts(alloc, count, plan.letters) else {
            return Err(devices);
        };
        let Ok(rooms) = Rooms::new(alloc, number, &plan, devices.len()) else {
            return Err(devices);
        };
        Ok(Board {
            harts,
            next: 0,
            watch: Watch::new(count),
            bus: HartBus::new(plan, rooms, devices),
        })
    }

    /// The plan that the board was made by. At every moment its devices are of the plan's kinds,
    /// in the plan's order, and in states that such devices can have.
    pub fn plan(&self) -> &BoardPlan
        ensures plan { result.now ≡ self.now.view.space.plan }
        ensures valid { IsValid result.now }
        ensures kinds { map (λ device. kind_of device.state) self.now.view.space.devices ≡ result.now.kinds }
        ensures states { All (λ device. IsValidState device.state) self.now.view.space.devices }
        ensures count { length self.now.view.space.devices ≡ length result.now.kinds }
        ensures kind { (dev : ℕ) → dev < length result.now.kinds →
            kind_of (device_at self.now.view.space dev).state
            ≡ slice_index_or result.now.kinds dev Finisher }
        ensures sizes { map length self.now.view.space.memories ≡ result.now.memories }
        ensures harts { length self.now.view.cores ≡ length result.now.cpus }
        ensures next { self.now.view.next < length result.now.cpus }
        ensures reservations { length self.now.view.watch ≡ length result.now.cpus }
        ensures letters { All (λ core. core.letters ≡ result.now.letters) self.now.view.cores }
        ensures numbers { map (λ core. core.number) self.now.view.cores
            ≡ range_with_len 0 (length result.now.cpus) }
    {
        self.bus.space.plan()
    }

    /// Instructions a microsecond of all processors together, 1 to 1,000.
    pub fn speed(&self) -> u32
        ensures value { result ≡ self.now.view.numbers.speed }
        ensures least { 1 ≤ result }
        ensures most { result ≤ 1000 }
        ensures shared { result % length self.now.view.cores ≡ 0 }
    {
        self.bus.outbox.numbers.speed
    }

    /// The number of the processor that takes the next slot.
    pub fn next(&self) -> u8
        ensures { result ≡ self.now.view.next }
    {
        self.next
    }

    /// Sets the speed, in instructions a microsecond of all processors together.
    pub fn set_speed(&mut self, speed: u32)
        requires least { 1 ≤ speed }
        requires most { speed ≤ 1000 }
        requires shared { speed % length self.old.view.cores ≡ 0 }
        ensures { self.new ≡ record self.old { view = with_speed self.old.view speed } }
    {
        self.bus.outbox.numbers.speed = speed;
    }

    /// Takes the next `n` slots, which the processors take in turn. Slot `i` of the call lies in
    /// microsecond `at.from + (at.first + i) / speed`. A slot of a halted processor passes and
    /// changes nothing but whose turn is next. `Starved` is for want of memory alone.
    pub fn turn(&mut self, at: SlotAt, n: u64) -> Turn
        requires time { at.from.0 + (at.first + n) / self.old.view.numbers.speed ≤ 10000000000 }
        requires posts { self.old.view.numbers.posted + n < 2 ^ 64 }
        requires entries { self.old.view.numbers.entered + n < 2 ^ 64 }
        ensures { IsTurn self.old at.from.0 at.first n result self.new }
    {
        if all_halted(&self.harts) {
            self.skip(n);
            return Turn::Used(n);
        }
        // loops of their own, so that a board of one processor without atomic instructions asks in no slot whose turn
        // is next and what is reserved, one without timer, interrupt controller and wires asks for no lines, and none
        // asks whether there are compressed instructions
        let Features {
            shared,
            wired,
            halves,
        } = self.features();
        match (shared, wired, halves) {
            (false, false, false) => self.slots::<UNWIRED>(false, false, false, at, n),
            (false, true, false) => self.slots::<WIRED>(false, true, false, at, n),
            (false, false, true) => self.slots::<UNWIRED_HALVES>(false, false, true, at, n),
            (false, true, true) => self.slots::<WIRED_HALVES>(false, true, true, at, n),
            (true, _, _) => self.slots::<SHARED>(true, wired, halves, at, n),
        }
    }

    /// Hands a device what another board has sent.
    pub fn deliver(&mut self, dev: u8, payload: &Payload) -> Taken
        requires { dev < length self.old.view.space.devices }
        ensures taken { result ≡ taken_by self.old.view dev payload.now }
        ensures after { self.new ≡ record self.old { view = handed self.old.view dev payload.now } }
    {
        self.bus.space.take(dev, payload)
    }

    /// The oldest post that was not dropped yet.
    pub fn next_post(&self) -> Option<Post>
        ensures { result ≡ slice_get self.now.posts 0 }
    {
        self.bus.outbox.posts.front().copied()
    }

    /// Drops the oldest post.
    pub fn drop_post(&mut self)
        requires { self.old.posts ≢ [] }
        ensures { self.new ≡ record self.old { posts = drop 1 self.old.posts } }
    {
        let _ = self.bus.outbox.posts.pop_front();
    }

    /// Hands out the log entries since the last call, in the order in which they were made, and
    /// keeps none.
    pub fn take_entries(&mut self) -> Vec<Entry>
        ensures taken { result.items ≡ self.old.entries }
        ensures left { self.new ≡ record self.old { entries = [] } }
    {
        let none = Vec::new(*self.bus.outbox.entries.allocator());
        if self.bus.outbox.entries.is_empty() {
            return none;
        }
        mem::replace(&mut self.bus.outbox.entries, none)
    }

    /// Shows a UART or a CAN controller: from now on each byte or frame that it sends makes a log
    /// entry. Again, it changes nothing.
    pub fn show(&mut self, dev: u8)
        requires dev { dev < length self.old.view.space.devices }
        requires kind { IsTrue (may_be_shown self.old.view dev) }
        ensures { self.new ≡ record self.old { view = with_shown self.old.view dev } }
    {
        self.bus.space.show(dev);
    }

    /// Whether a device is shown.
    pub fn is_shown(&self, dev: u8) -> bool
        requires { dev < length self.now.view.space.devices }
        ensures { result ≡ (device_at self.now.view.space dev).shown }
    {
        self.bus.space.is_shown(dev)
    }

    /// Whether each of `count` bytes from an address on lies in a memory. Where `count` is 0, that
    /// is so at every address.
    pub fn holds(&self, at: u32, count: u32) -> bool
        ensures { result ≡ holds_each self.now.view.space at count }
    {
        self.bus.space.holds(at, count)
    }

    /// Writes bytes into the memories from an address on, and ends all reservations, where there are
    /// no bytes too. After an `Err` some of the first of them are written.
    pub fn copy_in(&mut self, at: u32, bytes: &[u8]) -> Result<(), NoMemory>
        requires { IsTrue (holds_each self.old.view.space at (length bytes.now)) }
        ensures ok { OnOk result
            (self.new ≡ record self.old { view = with_bytes self.old.view at bytes.now }) }
        ensures err { OnErr result (WritesPrefix self.old self.new at bytes.now) }
    {
        self.watch.clear();
        self.bus.space.copy_in(at, bytes)
    }

    /// Puts 0 into `count` bytes of the memories from an address on, and ends all reservations.
    pub fn zero(&mut self, at: u32, count: u32)
        requires { IsTrue (holds_each self.old.view.space at count) }
        ensures { self.new ≡ record self.old { view = with_bytes self.old.view at (zeros count) } }
    {
        self.watch.clear();
        self.bus.space.zero(at, count);
    }

    /// Brings the processors, the timer, the interrupt controller and the devices into their first
    /// states, with each pc at 0. All reservations end, and the first processor takes the next slot.
    /// Memories, speed, which processors are halted, which devices are shown, and the counts of posts
    /// and entries stay.
    pub fn reset(&mut self)
        ensures { self.new ≡ record self.old { view = reset self.old.view } }
    {
        reset_all(&mut self.harts);
        self.next = 0;
        self.watch.clear();
        self.bus.space.reset();
    }

    /// Sets the address of a processor's next instruction, which is divisible by 4, or with
    /// compressed instructions by 2.
    pub fn set_pc(&mut self, hart: u8, pc: u32)
        requires hart { hart < length self.old.view.cores }
        requires aligned { pc % alignment self.old.view.space.plan.letters ≡ 0 }
        ensures { self.new ≡ record self.old { view = with_pc self.old.view hart pc } }
    {
        self.harts[usize::from(hart)].set_pc(pc);
    }

    /// Whether the next instruction may lie at an address.
    pub fn aligns(&self, pc: u32) -> bool
        ensures { result ≡ (pc % alignment self.now.view.space.plan.letters == 0) }
    {
        self.bus.space.plan().letters.aligns(pc)
    }

    /// The address of a processor's next instruction.
    pub fn pc(&self, hart: u8) -> u32
        requires { hart < length self.now.view.cores }
        ensures { result ≡ (core_at self.now.view hart).pc }
    {
        self.harts[usize::from(hart)].pc()
    }

    /// Whether a processor is halted: its slots pass and change nothing but whose turn is next.
    pub fn halted(&self, hart: u8) -> bool
        requires { hart < length self.now.view.cores }
        ensures { result ≡ (core_at self.now.view hart).halted }
    {
        self.harts[usize::from(hart)].halted()
    }

    /// Whether each processor is halted or waits for an interrupt: then the next slots may pass idle.
    pub fn is_asleep(&self) -> bool
        ensures { result ≡ list_all (λ core. core.halted || core.waiting) self.now.view.cores }
    {
        all_asleep(&self.harts)
    }

    /// Halts a processor, or lets it run.
    pub fn set_halted(&mut self, hart: u8, on: bool)
        requires { hart < length self.old.view.cores }
        ensures { self.new ≡ record self.old { view = with_halted self.old.view hart on } }
    {
        self.harts[usize::from(hart)].set_halted(on);
    }

    /// What a register of a processor reads.
    pub fn register(&self, hart: u8, n: u8) -> u32
        requires hart { hart < length self.now.view.cores }
        requires register { n < 32 }
        ensures { result ≡ reg (core_at self.now.view hart) n }
    {
        self.harts[usize::from(hart)].register(n)
    }

    /// How many posts the board has made so far.
    pub fn posted(&self) -> u64
        ensures { result ≡ self.now.view.numbers.posted }
    {
        self.bus.outbox.numbers.posted
    }

    /// How many log entries the board has made so far.
    pub fn entered(&self) -> u64
        ensures { result ≡ self.now.view.numbers.entered }
    {
        self.bus.outbox.numbers.entered
    }

    /// How many instructions a processor has retired, by its CSR minstret.
    pub fn retired(&self, hart: u8) -> u64
        requires { hart < length self.now.view.cores }
        ensures { result ≡ (core_at self.now.view hart).minstret }
    {
        self.harts[usize::from(hart)].state().minstret
    }

    /// The word of memory at an address. None exactly where the address is not a multiple of 4 or
    /// no memory holds all four bytes.
    pub fn load_word(&self, at: u32) -> Option<u32>
        ensures { result ≡ word_held self.now.view at }
    {
        if at % 4 != 0 {
            return None;
        }
        self.bus.space.word(at)
    }
}
