//! The numbers of a board.
ghost use Rattle.std.specs.Prelude.{◌≡◌};
ghost use Rattle.board.specs.BoardState.{numbers_to};
ghost use Rattle.board.specs.Numbers.{after_post, after_entry};

use board_space::BoardState;
use lab_num::BoardNo;
use std::marker::Model;

/// A board's own number, its speed in instructions a microsecond, and how many posts and log
/// entries it has made.
#[derive(Drop)]
pub struct Numbers {
    pub number: BoardNo,
    pub speed: u32,
    pub posted: u64,
    pub entered: u64,
}

impl Model for Numbers {
    ghost use Rattle.board.specs.Numbers.{Numbers as Seen};

    ghost Value = { Seen };

    ghost view = { λ n. record {
      number = n.number.0;
      speed = n.speed;
      posted = n.posted;
      entered = n.entered;
    } };
}

impl Numbers {
    /// The numbers of a board that has made nothing yet.
    pub fn new(number: BoardNo, speed: u32) -> Numbers
        ensures { result ≡ record { number = number.0; speed = speed; posted = 0; entered = 0 } }
    {
        Numbers {
            number,
            speed,
            posted: 0,
            entered: 0,
        }
    }

    /// Counts a post more. The counter stands still at its last value.
    pub fn count_post(&mut self)
        ensures { self.new ≡ after_post self.old }
    {
        self.posted = self.posted.saturating_add(1);
    }

    /// Counts a log entry more. The counter stands still at its last value.
    pub fn count_entry(&mut self)
        ensures { self.new ≡ after_entry self.old }
    {
        self.entered = self.entered.saturating_add(1);
    }

    /// Brings the speed and the counts to those of a state.
    pub fn bring_to(&mut self, s: &BoardState)
        ensures { self.new ≡ numbers_to self.old s.now }
    {
        self.speed = s.speed;
        self.posted = s.posted;
        self.entered = s.entries;
    }
}
