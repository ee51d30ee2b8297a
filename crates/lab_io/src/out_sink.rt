//! The standard output as an output that counts its faults.
ghost use Rattle.std.specs.Prelude.{◌≡◌, ◌≢◌, ◌≤◌, [], length, take, None};
ghost use Rattle.std.specs.Io.KnownBytes.{Appends};
ghost use Rattle.lab_io.specs.Known.{grown, Rose};
ghost use Rattle.lab_io.specs.Sink.{IsTaken, taken, write_faults};

use crate::sink::{Sink, Wrote};
use std::io;
use std::io::{ErrorKind, Write};
use std::marker::Model;

/// Writes some of the piece, and says how much was taken. An output that takes nothing has failed; a
/// write that a signal interrupts is made again.
fn write_some<W: Write>(out: &mut W, piece: &[u8]) -> Wrote
    requires { piece.now ≢ [] }
    ensures taken { IsTaken result (length piece.now) }
    ensures written { Appends (W.contents out.old) (W.contents out.new)
        (take (taken result) piece.now) }
    ensures never_memory { result ≢ Wrote.Memory }
{
    for _ in 0..u64::MAX {
        match out.write(piece) {
            Ok(count) if count > 0 => return Wrote::Took(count),
            Err(error) if error.kind() == ErrorKind::Interrupted => {}
            _ => return Wrote::Failed,
        }
    }
    Wrote::Failed
}

/// The standard output. What has been written is not told: of it contracts see how many faults
/// there have been.
#[derive(Drop)]
pub struct OutSink<'a, R> {
    rt: &'a R,
    faults: u64,
}

impl<'a, R> Model for OutSink<'a, R> {
    ghost use Rattle.std.specs.Prelude.{ℕ};

    ghost Value = { ℕ };

    ghost view = { λ sink. sink.faults };
}

impl<'a, R: Print> OutSink<'a, R> {
    /// There has been no fault yet.
    pub fn new(rt: &'a R) -> OutSink<'a, R>
        ensures { result ≡ 0 }
    {
        OutSink { rt, faults: 0 }
    }
}

impl<R: Print> Sink for OutSink<'_, R> {
    ghost written = { λ _. None };

    ghost faults = { λ faults. faults };

    fn write(&mut self, piece: &[u8]) -> Wrote
        requires { piece.now ≢ [] }
        ensures taken { IsTaken result (length piece.now) }
        ensures written { None ≡ grown None (take (taken result) piece.now) }
        ensures failed { result ≡ Wrote.Failed → Rose self.old self.new }
        ensures faults { self.old ≤ self.new }
        ensures counted { self.new ≡ write_faults result self.old }
        ensures never_memory { result ≢ Wrote.Memory }
    {
        let answer = write_some(&mut io::writer(self.rt), piece);
        if answer == Wrote::Failed {
            self.faults = self.faults.saturating_add(1);
        }
        answer
    }
}
