//! One seat of a bench.
ghost use Rattle.std.specs.Prelude.{◌≡◌, []};
ghost use Rattle.floor_run.specs.Bench.{HoldsNothing};

use crate::view::View;
use atomic_table::Seat;
use lab_num::BoardNo;
use std::marker::Model;

/// One seat of a bench, which holds at most one board. A hand that is let go while it holds a board
/// leaves that board out.
pub struct Hand<J> {
    pub(crate) seat: Seat<Option<J>, View<J>>,
    // the board of the last claim, and its reports as that claim found them
    pub(crate) board: BoardNo,
    pub(crate) reports: u64,
}

impl<J> Model for Hand<J> {
    ghost use Rattle.std.specs.Prelude.{◌≡◌};
    ghost use Rattle.floor_run.specs.Bench.{HandModel};
    ghost use Rattle.floor_run.specs.Inner.Hand.{HandRule, carried};

    ghost Value = { HandModel J };

    ghost view = { λ h. record { bench = h.seat.table_id; sees = h.seat.me.0 } };

    ghost invariant = { λ h.
        HandRule h.seat.me.0 h.board.0 h.reports × (h.seat.me.1 ≡ carried h.seat.me.0 h.seat.me.0.held) };
}

impl<J> Hand<J> {
    pub(crate) fn into_seat(self) -> Seat<Option<J>, View<J>>
        requires { HoldsNothing self }
        ensures { (result.table_id ≡ self.bench) × (result.me ≡ (self.sees, [])) }
    {
        let Self {
            seat,
            board: _,
            reports: _,
        } = self;
        seat
    }
}

impl<J> Drop for Hand<J> {
    fn drop(self) {
        let Self {
            seat: _,
            board: _,
            reports: _,
        } = self;
    }
}
