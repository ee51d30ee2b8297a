//! An output in memory, whose writes can be made short and made to fail.
ghost use Rattle.std.specs.Prelude.{◌≡◌, ◌≢◌, ◌↔◌, ◌≤◌, ◌++◌, ◌∷◌, [], Some, length, take, OnOk, OnErr, IsTrue};
ghost use Rattle.std.specs.Prelude.{Contains};
ghost use Rattle.lab_io.specs.Known.{grown, Rose};
ghost use Rattle.lab_io.specs.Sink.{IsTaken, taken};

use crate::sink::{Sink, Wrote};
use std::alloc::{AllocError, Global};
use std::marker::Model;

/// An output in memory. Each write has a number, counted from 0, and those that are listed fail.
/// The number stays at 2^64 - 1 once it is there.
#[derive(Drop)]
pub struct MemSink {
    bytes: Vec<u8>,
    most: usize,
    failing: Vec<u64>,
    calls: u64,
    faults: u64,
}

impl Model for MemSink {
    ghost use Rattle.std.specs.Prelude.{◌≤◌};
    ghost use Rattle.lab_io.specs.SinkSeen.{SinkSeen};

    ghost Value = { SinkSeen };

    ghost view = { λ sink. record {
      bytes = sink.bytes.items;
      most = sink.most;
      failing = sink.failing.items;
      calls = sink.calls;
      faults = sink.faults;
    } };

    ghost invariant = { λ sink. 1 ≤ sink.most };
}

impl MemSink {
    /// Nothing is written yet, and no write is to fail. A write takes at most so many bytes.
    pub fn new(alloc: Global, most: usize) -> MemSink
        requires { 1 ≤ most }
        ensures { result ≡ record { bytes = []; most = most; failing = []; calls = 0; faults = 0 } }
    {
        MemSink {
            bytes: Vec::new(alloc),
            most,
            failing: Vec::new(alloc),
            calls: 0,
            faults: 0,
        }
    }

    /// Lets the write with this number fail.
    pub fn fail_at(&mut self, call: u64) -> Result<(), AllocError>
        ensures ok { OnOk result (self.new
            ≡ record self.old { failing = self.old.failing ++ call ∷ [] }) }
        ensures err { OnErr result (self.new ≡ self.old) }
    {
        self.failing.push(call)?;
        Ok(())
    }

    /// All the bytes so far.
    pub fn bytes(&self) -> &[u8]
        ensures { result.now ≡ self.now.bytes }
    {
        self.bytes.as_slice()
    }

    /// Whether the number of the write that comes next is listed.
    fn is_listed(&self) -> bool
        ensures { IsTrue result ↔ Contains self.now.failing self.now.calls }
    {
        self.failing.contains(&self.calls)
    }
}

impl Sink for MemSink {
    ghost use Rattle.lab_io.specs.SinkSeen.{TakesMost, after_write};

    ghost written = { λ sink. Some sink.bytes };

    ghost faults = { λ sink. sink.faults };

    fn write(&mut self, piece: &[u8]) -> Wrote
        requires { piece.now ≢ [] }

        ensures taken { IsTaken result (length piece.now) }
        ensures written { Some self.new.bytes
            ≡ grown (Some self.old.bytes) (take (taken result) piece.now) }
        ensures failed { result ≡ Wrote.Failed → Rose self.old.faults self.new.faults }
        ensures faults { self.old.faults ≤ self.new.faults }

        ensures fails { result ≡ Wrote.Failed ↔ Contains self.old.failing self.old.calls }
        ensures most { TakesMost self.old.most result (length piece.now) }
        ensures after { self.new ≡ after_write self.old piece.now result }
    {
        let is_listed = self.is_listed();
        self.calls = self.calls.saturating_add(1);
        if is_listed {
            self.faults = self.faults.saturating_add(1);
            return Wrote::Failed;
        }
        let count = self.most.min(piece.len());
        match self.bytes.extend_from_slice(&piece[..count]) {
            Ok(()) => Wrote::Took(count),
            Err(_) => Wrote::Memory,
        }
    }
}
