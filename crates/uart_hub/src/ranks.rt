//! In which hub each member is.
ghost use Rattle.std.specs.Prelude.{◌≡◌, ◌<◌, ℕ, [], length, slice_index_or, slice_set, OnOk};
ghost use Rattle.uart_hub.specs.Inner.Rank.{place};

use lab_num::{Member, NoMemory};
use std::alloc::Global;
use std::marker::Model;

/// A number for each member, which contracts see as their list by the members' places. Past its end they are 0.
#[derive(Drop)]
pub struct Ranks {
    numbers: Vec<usize>,
}

impl Model for Ranks {
    ghost use Rattle.std.specs.Prelude.{List, ℕ};

    ghost Value = { List ℕ };

    ghost view = { λ r. r.numbers.items };
}

/// The place of a member among all that there may be.
fn place_of(member: Member) -> usize
    ensures value { result ≡ place member }
    ensures low { member.board.0 < 256 }
{
    256 * usize::from(member.dev) + usize::from(member.board.0)
}

impl Ranks {
    /// All numbers are 0. Nothing is allocated.
    pub fn new(alloc: Global) -> Ranks
        ensures { result ≡ [] }
    {
        Ranks {
            numbers: Vec::new(alloc),
        }
    }

    /// The number of a member.
    pub fn of(&self, member: Member) -> usize
        ensures value { result ≡ slice_index_or self.now (place member) 0 }
        ensures low { member.board.0 < 256 }
    {
        let place = place_of(member);
        if place < self.numbers.len() {
            self.numbers[place]
        } else {
            0
        }
    }

    /// Makes room for the number of a member. All numbers stay.
    pub fn reach(&mut self, member: Member) -> Result<(), NoMemory>
        ensures low { member.board.0 < 256 }
        ensures room { OnOk result (place member < length self.new) }
        ensures same { (k : ℕ) → slice_index_or self.new k 0 ≡ slice_index_or self.old k 0 }
    {
        let place = place_of(member);
        if self.numbers.len() <= place {
            self.numbers.resize(place + 1, 0)?;
        }
        Ok(())
    }

    /// Gives a member a number, for which there is room.
    pub fn put(&mut self, member: Member, number: usize)
        requires { place member < length self.old }
        ensures { self.new ≡ slice_set self.old (place member) number }
    {
        let place = place_of(member);
        self.numbers[place] = number;
    }
}
