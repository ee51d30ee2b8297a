//! The members of a source and their grants.
ghost use Rattle.std.specs.Prelude.{◌≡◌, ◌+◌, ◌^◌, ◌<◌, ◌≤◌, ◌↔◌, true, false, [], length, map, All, Any, IsTrue};
ghost use Rattle.std.specs.Prelude.{IsNone, IfSome, IfNone, OnSome, slice_get, slice_set};
ghost use Rattle.std.specs.Option.{ForSome};
ghost use Rattle.time_handle.specs.Grant as grants;
ghost use Rattle.time_source.specs.Tree as tree;

use lab_num::{BoardNo, Micros};
use std::marker::Model;
use time_handle::Handle;

/// The most members that a source has.
const MEMBERS: usize = 16;

/// A source of time and its members, each with its speed and its part of the grant. The members
/// are boards, numbered from 0 in order of joining.
#[derive(Drop)]
pub struct Source {
    places: [Handle; MEMBERS],
    count: usize,
    end: Micros,
    is_open: bool,
}

impl Model for Source {
    ghost use Rattle.time_source.specs.Tree.{Tree};

    ghost Value = { Tree };

    ghost use Rattle.time_source.specs.Inner.Source.{tree_of, IsSource};

    ghost view = { tree_of };

    ghost invariant = { IsSource };
}

/// Gives each of them a new grant at its speed.
fn renew(handles: &mut [Handle], from: Micros, to: Micros)
    requires order { from.0 ≤ to.0 }
    requires last { to.0 ≤ 10 ^ 10 }
    ensures { handles.new ≡ map (tree.renewed from.0 to.0) handles.old }
{
    for handle in handles {
        *handle = Handle::new(from, to, handle.speed());
    }
}

/// The least of their times, if there are any.
fn least(handles: &[Handle]) -> Option<u64>
    ensures none { IsNone result ↔ (handles.now ≡ []) }
    ensures one { IfSome result (λ t.
        Any (λ g. (t ≡ grants.elapsed g) × (t ≤ g.to)) handles.now) }
    ensures least { IfSome result (λ t. All (λ g. t ≤ grants.elapsed g) handles.now) }
{
    handles.iter().map(|handle| handle.elapsed().0).min()
}

impl Source {
    /// A source without members, at time 0.
    pub fn new() -> Source
        ensures { result ≡ tree.new }
    {
        Source::at(Micros(0))
    }

    /// A source without members, at a time.
    pub fn at(now: Micros) -> Source
        requires { now.0 ≤ 10 ^ 10 }
        ensures { result ≡ tree.new_at now.0 }
    {
        Source {
            places: [Handle::new(now, now, 1); MEMBERS],
            count: 0,
            end: now,
            is_open: false,
        }
    }

    fn handles(&self) -> &[Handle]
        ensures handles { result.now ≡ self.now.handles }
        ensures ends { All (λ g. g.to ≡ self.now.end) result.now }
    {
        &self.places[..self.count]
    }

    /// Takes in a member of so many slots a microsecond, unless there are 16 members. Between two
    /// grants only.
    pub fn add(&mut self, speed: u32) -> Option<BoardNo>
        requires closed { self.old.is_open ≡ false }
        requires slowest { 1 ≤ speed }
        requires fastest { speed ≤ 1000 }
        ensures full { IsNone result ↔ (length self.old.handles ≡ 16) }
        ensures number { IfSome result (λ board. board.0 ≡ length self.old.handles) }
        ensures added { OnSome result (self.new ≡ tree.with_member self.old speed) }
        ensures refused { IfNone result (self.new ≡ self.old) }
    {
        if self.count == MEMBERS {
            return None;
        }
        let board = BoardNo(self.count as u8);
        self.places[self.count] = Handle::new(self.end, self.end, speed);
        self.count += 1;
        Some(board)
    }

    /// Sets a member's speed for the grants to come. Between two grants only.
    pub fn set_speed(&mut self, board: BoardNo, speed: u32)
        requires closed { self.old.is_open ≡ false }
        requires member { board.0 < length self.old.handles }
        requires slowest { 1 ≤ speed }
        requires fastest { speed ≤ 1000 }
        ensures { self.new ≡ tree.with_speed self.old board.0 speed }
    {
        self.places[usize::from(board.0)] = Handle::new(self.end, self.end, speed);
    }

    /// Grants `q` microseconds more to each member.
    pub fn grant(&mut self, q: u64)
        requires closed { self.old.is_open ≡ false }
        requires last { tree.elapsed self.old + q ≤ 10 ^ 10 }
        ensures { self.new ≡ tree.granted self.old q }
    {
        let from = self.end;
        self.end = Micros(from.0 + q);
        renew(&mut self.places, from, self.end);
        self.is_open = true;
    }

    /// A member's part of the open grant.
    pub fn handle(&self, board: BoardNo) -> Handle
        requires opened { self.now.is_open ≡ true }
        requires member { board.0 < length self.now.handles }
        ensures { slice_get self.now.handles board.0 ≡ Some result }
    {
        self.handles()[usize::from(board.0)]
    }

    /// Makes this the member's part of the open grant, with the slots that it has used since.
    pub fn put(&mut self, board: BoardNo, handle: Handle)
        requires opened { self.old.is_open ≡ true }
        requires member { board.0 < length self.old.handles }
        requires later { ForSome (slice_get self.old.handles board.0) (λ g. tree.IsLater g handle) }
        ensures placed { self.new ≡ record self.old {
          handles = slice_set self.old.handles board.0 handle;
        } }
        ensures rises { tree.elapsed self.old ≤ tree.elapsed self.new }
    {
        self.places[usize::from(board.0)] = handle;
    }

    /// The time that has passed for every member.
    pub fn elapsed(&self) -> Micros
        ensures value { result.0 ≡ tree.elapsed self.now }
        ensures last { result.0 ≤ self.now.end }
    {
        if !self.is_open {
            return self.end;
        }
        match least(self.handles()) {
            Some(time) => Micros(time),
            None => self.end,
        }
    }

    /// Whether no member has anything left.
    pub fn is_done(&self) -> bool
        ensures { IsTrue result ↔ tree.IsDone self.now }
    {
        self.handles().iter().all(|handle| handle.left() == 0)
    }

    /// Ends the open grant.
    pub fn close(&mut self)
        requires opened { self.old.is_open ≡ true }
        requires done { tree.IsDone self.old }
        ensures { self.new ≡ record self.old { is_open = false } }
    {
        self.is_open = false;
    }
}
