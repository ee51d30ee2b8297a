//! A laboratory goes on from where another one has stood.
ghost use Rattle.std.specs.Prelude.{◌≡◌, ◌≤◌, false, [], length, map, is_some};
ghost use Rattle.std.specs.List.{zip};
ghost use Rattle.lab_state.specs.Inner.Time.{numbers_of, speed_of};
ghost use Rattle.lab_state.specs.Resumed.{FitTheirBoards, resumed, resumed_board};
ghost use Rattle.lab_state.specs.Valid.{IsLab};

use crate::lab::Lab;
use crate::named_board::NamedBoard;
use board::BoardState;
use dev_core::{Device, Post};
use lab_num::Micros;
use time_source::Source;

/// Brings each board to its state, if there is one.
fn put_states<D: Device>(boards: &mut [NamedBoard<D>], states: &[Option<BoardState>])
    requires count { length states.now ≡ length boards.old }
    requires fit { FitTheirBoards boards.old states.now }
    ensures { boards.new ≡ map (λ (board, s). resumed_board board s) (zip boards.old states.now) }
{
    for (n, board) in boards.iter_mut().enumerate() {
        board.resume(&states[n]);
    }
}

/// A source at a time, of which each board is a member at its speed.
fn source_at<D: Device>(now: Micros, boards: &[NamedBoard<D>]) -> Source
    requires last { now.0 ≤ 10000000000 }
    requires few { length boards.now ≤ 16 }
    ensures closed { result.is_open ≡ false }
    ensures end { result.end ≡ now.0 }
    ensures speeds { map (λ g. g.speed) result.handles ≡ map speed_of (numbers_of boards.now) }
{
    let mut source = Source::at(now);
    for board in boards {
        let _member = source.add(board.speed());
    }
    source
}

impl<D: Device> Lab<D> {
    /// Brings a laboratory that has not run yet to where another one has stood at this time: its boards,
    /// which have their plans and memories, to these states, one for each board that has a plan, and with
    /// these posts that wait.
    pub fn resume(&mut self, now: Micros, states: &[Option<BoardState>], pending: Vec<Post>)
        requires unspent { self.old.spent ≡ false }
        requires new { self.old.lab.now ≡ 0 }
        requires none { self.old.lab.pending ≡ [] }
        requires there { map is_some states.now ≡ map (λ board. is_some board.view) self.old.lab.boards }
        requires fit { FitTheirBoards self.old.lab.boards states.now }
        requires valid { IsLab (resumed self.old.lab now.0 states.now pending.items) }
        ensures { self.new ≡ record self.old {
          lab = resumed self.old.lab now.0 states.now pending.items;
        } }
    {
        put_states(&mut self.boards, states);
        self.source = source_at(now, &self.boards);
        self.pending = pending;
    }
}
