//! An output that takes bytes piece by piece.
ghost use Rattle.std.specs.Prelude.{◌≡◌, ◌≢◌, ℕ, ◌≤◌, List, [], Option, length, take};
ghost use Rattle.lab_io.specs.Known.{grown, Rose};
ghost use Rattle.lab_io.specs.Sink.{IsTaken, taken};

/// How one write has ended.
#[derive(Clone, Copy, PartialEq, Eq)]
pub enum Wrote {
    /// So many bytes were taken, from the front of the piece.
    Took(usize),
    /// The output had a fault, which it counted. Nothing was taken.
    Failed,
    /// Memory ran out. Nothing was taken.
    Memory,
}

/// Why a piece was not written whole.
#[derive(Clone, Copy, PartialEq, Eq)]
pub enum WriteFault {
    /// The output had a fault, which it counted.
    Unwritten,
    /// Memory ran out.
    Memory,
}

/// An output, to which bytes are written.
pub trait Sink {
    /// All the bytes so far, where they are told.
    ghost written: { Self → Option (List ℕ) };

    /// How many faults there have been. The count stays at 2^64 - 1 once it is there.
    ghost faults: { Self → ℕ };

    /// Writes some of the piece, from its front. The caller goes on with the rest.
    fn write(&mut self, piece: &[u8]) -> Wrote
        requires { piece.now ≢ [] }

        ensures taken { IsTaken result (length piece.now) }
        ensures written { written self.new
            ≡ grown (written self.old) (take (taken result) piece.now) }
        ensures failed { result ≡ Wrote.Failed → Rose (faults self.old) (faults self.new) }
        ensures faults { faults self.old ≤ faults self.new };
}
