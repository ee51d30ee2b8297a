//! Files that are read whole, by name.
ghost use Rattle.std.specs.Prelude.{◌≡◌, ℕ, ◌≤◌, List, [], Option};
ghost use Rattle.lab_io.specs.Known.{grown, Rose};
ghost use Rattle.lab_io.specs.Held.{Held, IsReadAs, asks};

/// How a read has ended.
#[derive(Clone, Copy, PartialEq, Eq)]
pub enum ReadAnswer {
    /// The file was read whole.
    Done,
    /// The files had a fault, which they counted.
    Failed,
    /// The file has more bytes than the limit.
    TooLarge,
    /// Memory ran out.
    Memory,
}

/// Files that are read whole, by name.
pub trait Files {
    /// What the names hold, where that is told. No call of this trait changes it.
    ghost held: { Self → Option Held };

    /// The names of all reads so far, in order, where they are told.
    ghost asked: { Self → Option (List (List ℕ)) };

    /// How many faults there have been. The count stays at 2^64 - 1 once it is there.
    ghost faults: { Self → ℕ };

    /// Reads a file of at most `limit` bytes whole. `into` stays empty unless the answer is `Done`.
    fn read(&mut self, name: &str, limit: usize, into: &mut Vec<u8>) -> ReadAnswer
        requires empty { into.old.items ≡ [] }
        requires limit { limit ≤ 67108864 }

        ensures bytes { IsReadAs (held self.old) name.now limit result into.new.items }
        ensures failed { result ≡ ReadAnswer.Failed → Rose (faults self.old) (faults self.new) }

        ensures held { held self.new ≡ held self.old }
        ensures asked { asked self.new ≡ grown (asked self.old) (asks result name.now) }
        ensures faults { faults self.old ≤ faults self.new };
}
