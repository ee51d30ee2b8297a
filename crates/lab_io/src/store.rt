//! A store that keeps bytes by name.
ghost use Rattle.std.specs.Prelude.{◌≡◌, ℕ, ◌≤◌, List, [], Option};
ghost use Rattle.lab_io.specs.Known.{grown, Rose};
ghost use Rattle.lab_io.specs.Held.{Held, IsReadAs};
ghost use Rattle.lab_io.specs.Store.{StoreUse, get_uses, kept_after, put_uses};

use crate::files::ReadAnswer;

/// How a put has ended.
#[derive(Clone, Copy, PartialEq, Eq)]
pub enum StoreAnswer {
    /// The bytes are kept.
    Done,
    /// The store had a fault, which it counted.
    Failed,
    /// Memory ran out.
    Memory,
}

/// A store that keeps bytes by name.
pub trait Store {
    /// What the names keep, where that is told.
    ghost kept: { Self → Option Held };

    /// The calls so far, in order, where they are told.
    ghost uses: { Self → Option (List StoreUse) };

    /// How many faults there have been. The count stays at 2^64 - 1 once it is there.
    ghost faults: { Self → ℕ };

    /// Keeps the bytes under the name, in place of those that it kept. Where the answer is not `Done`,
    /// what is kept stays.
    fn put(&mut self, name: &str, bytes: &[u8]) -> StoreAnswer
        ensures kept { kept self.new ≡ kept_after result (kept self.old) name.now bytes.now }
        ensures failed { result ≡ StoreAnswer.Failed → Rose (faults self.old) (faults self.new) }

        ensures uses { uses self.new ≡ grown (uses self.old) (put_uses result name.now bytes.now) }
        ensures faults { faults self.old ≤ faults self.new };

    /// Reads what a name keeps, of at most `limit` bytes. `into` stays empty unless the answer is `Done`.
    fn get(&mut self, name: &str, limit: usize, into: &mut Vec<u8>) -> ReadAnswer
        requires empty { into.old.items ≡ [] }
        requires limit { limit ≤ 67108864 }

        ensures bytes { IsReadAs (kept self.old) name.now limit result into.new.items }
        ensures failed { result ≡ ReadAnswer.Failed → Rose (faults self.old) (faults self.new) }

        ensures kept { kept self.new ≡ kept self.old }
        ensures uses { uses self.new ≡ grown (uses self.old) (get_uses result name.now) }
        ensures faults { faults self.old ≤ faults self.new };
}
