//! Changes of one board.
ghost use Rattle.std.specs.Prelude.{◌≡◌, ◌≤◌, ◌<◌, ◌%◌, length, false, IsSome, IsTrue, OnOk, OnErr};
ghost use Rattle.std.specs.Option.{ForSome};
ghost use Rattle.page_ram.specs.Bytes.{zeros};
ghost use Rattle.rv_hart.specs.Core.{alignment};
ghost use Rattle.board.specs.Changes.{with_pc, with_halted, with_speed, with_shown, with_bytes, may_be_shown};
ghost use Rattle.board.specs.Changes.{holds_each, with_memory_in};
ghost use Rattle.board.specs.Space.{memory_at};
ghost use Rattle.board.specs.New as board_spec;
ghost use Rattle.lab_state.specs.Inner.BoardChange.{changed_by, MayChange};
ghost use Rattle.lab_state.specs.One.{view_of, changed, WritesPrefix};

use crate::board_change::BoardChange;
use crate::lab::Lab;
use dev_core::Device;
use lab_num::{BoardNo, Member, NoMemory};
use page_ram::PageRam;

impl<D: Device> Lab<D> {
    /// Changes a board.
    fn change(&mut self, b: BoardNo, change: BoardChange)
        requires unspent { self.old.spent ≡ false }
        requires has_plan { IsSome (view_of self.old.lab b.0) }
        requires may { ForSome (view_of self.old.lab b.0) (MayChange change) }
        ensures { self.new ≡ record self.old {
          lab = changed self.old.lab b.0 (changed_by change);
        } }
    {
        self.boards[b.0 as usize].change(change);
    }

    /// Writes bytes into the memories of a board from an address on, and ends its reservations, where
    /// there are no bytes too. After an `Err` some of the first of them are written.
    pub fn copy_in(&mut self, b: BoardNo, at: u32, bytes: &[u8]) -> Result<(), NoMemory>
        requires unspent { self.old.spent ≡ false }
        requires has_plan { IsSome (view_of self.old.lab b.0) }
        requires holds { ForSome (view_of self.old.lab b.0) (λ v.
            IsTrue (holds_each v.space at (length bytes.now))) }
        ensures ok { OnOk result (self.new ≡ record self.old {
          lab = changed self.old.lab b.0 (λ v. with_bytes v at bytes.now);
        }) }
        ensures err { OnErr result (WritesPrefix self.old self.new b.0 at bytes.now) }
    {
        self.boards[b.0 as usize].copy_in(at, bytes)
    }

    /// Puts 0 into `count` bytes of the memories of a board from an address on, and ends its
    /// reservations.
    pub fn zero(&mut self, b: BoardNo, at: u32, count: u32)
        requires unspent { self.old.spent ≡ false }
        requires has_plan { IsSome (view_of self.old.lab b.0) }
        requires holds { ForSome (view_of self.old.lab b.0) (λ v.
            IsTrue (holds_each v.space at count)) }
        ensures { self.new ≡ record self.old {
          lab = changed self.old.lab b.0 (λ v. with_bytes v at (zeros count));
        } }
    {
        self.change(b, BoardChange::Zero { at, count });
    }

    /// Puts another memory of the same size in the place of one of a board, and ends its reservations.
    pub fn put_memory(&mut self, b: BoardNo, part: u8, memory: PageRam)
        requires unspent { self.old.spent ≡ false }
        requires has_plan { IsSome (view_of self.old.lab b.0) }
        requires part { ForSome (view_of self.old.lab b.0) (λ v. part < length v.space.memories) }
        requires size { ForSome (view_of self.old.lab b.0) (λ v.
            length memory ≡ length (memory_at v.space part)) }
        ensures { self.new ≡ record self.old {
          lab = changed self.old.lab b.0 (λ v. with_memory_in v part memory);
        } }
    {
        self.boards[b.0 as usize].put_memory(part, memory);
    }

    /// Sets the address of the next instruction of a board's processor, which is divisible by 4, or
    /// with compressed instructions by 2.
    pub fn set_pc(&mut self, b: BoardNo, hart: u8, pc: u32)
        requires unspent { self.old.spent ≡ false }
        requires has_plan { IsSome (view_of self.old.lab b.0) }
        requires hart { ForSome (view_of self.old.lab b.0) (λ v. hart < length v.cores) }
        requires aligned { ForSome (view_of self.old.lab b.0) (λ v.
            pc % alignment v.space.plan.letters ≡ 0) }
        ensures { self.new ≡ record self.old {
          lab = changed self.old.lab b.0 (λ v. with_pc v hart pc);
        } }
    {
        self.change(b, BoardChange::Pc { hart, pc });
    }

    /// Halts a processor of a board, or lets it run. The slots of a halted one pass, and change
    /// nothing but whose turn is next.
    pub fn set_halted(&mut self, b: BoardNo, hart: u8, on: bool)
        requires unspent { self.old.spent ≡ false }
        requires has_plan { IsSome (view_of self.old.lab b.0) }
        requires hart { ForSome (view_of self.old.lab b.0) (λ v. hart < length v.cores) }
        ensures { self.new ≡ record self.old {
          lab = changed self.old.lab b.0 (λ v. with_halted v hart on);
        } }
    {
        self.change(b, BoardChange::Halted { hart, on });
    }

    /// Sets the speed of a board for the rounds to come, in instructions a microsecond of all its
    /// processors together.
    pub fn set_speed(&mut self, b: BoardNo, speed: u32)
        requires unspent { self.old.spent ≡ false }
        requires has_plan { IsSome (view_of self.old.lab b.0) }
        requires least { 1 ≤ speed }
        requires most { speed ≤ 1000 }
        requires shared { ForSome (view_of self.old.lab b.0) (λ v. speed % length v.cores ≡ 0) }
        ensures { self.new ≡ record self.old {
          lab = changed self.old.lab b.0 (λ v. with_speed v speed);
        } }
    {
        self.boards[b.0 as usize].set_speed(speed);
        self.source.set_speed(b, speed);
    }

    /// Shows a UART or a CAN controller: from now on each byte or frame that it sends makes an item
    /// of the log, and what it is handed may make one. Again, it changes nothing.
    pub fn show(&mut self, member: Member)
        requires unspent { self.old.spent ≡ false }
        requires has_plan { IsSome (view_of self.old.lab member.board.0) }
        requires device { ForSome (view_of self.old.lab member.board.0) (λ v.
            member.dev < length v.space.devices) }
        requires kind { ForSome (view_of self.old.lab member.board.0) (λ v.
            IsTrue (may_be_shown v member.dev)) }
        ensures { self.new ≡ record self.old {
          lab = changed self.old.lab member.board.0 (λ v. with_shown v member.dev);
        } }
    {
        self.change(member.board, BoardChange::Shown(member.dev));
    }

    /// Brings the processors and the devices of a board into their first states, with each pc at 0.
    /// Memories, speed, which processors are halted, which devices are shown, and the counts of posts
    /// and entries stay.
    pub fn reset(&mut self, b: BoardNo)
        requires unspent { self.old.spent ≡ false }
        requires has_plan { IsSome (view_of self.old.lab b.0) }
        ensures { self.new ≡ record self.old {
          lab = changed self.old.lab b.0 board_spec.reset;
        } }
    {
        self.change(b, BoardChange::Reset);
    }
}
