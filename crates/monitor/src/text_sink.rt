//! An output in memory, whose bytes are taken out as they are.
use lab_io::{Sink, Wrote};
use std::alloc::Global;

/// An output in memory. No write to it fails.
#[derive(Drop)]
pub(crate) struct TextSink {
    pub(crate) text: Vec<u8>,
}

impl TextSink {
    ghost use Rattle.std.specs.Prelude.{◌≡◌, []};

    /// Nothing is written yet.
    pub(crate) fn new(alloc: Global) -> TextSink
        ensures { result.text.items ≡ [] }
    {
        TextSink {
            text: Vec::new(alloc),
        }
    }
}

impl Sink for TextSink {
    ghost use Rattle.std.specs.Prelude.{Some};

    ghost written = { λ sink. Some sink.text.items };

    ghost faults = { λ _. 0 };

    fn write(&mut self, piece: &[u8]) -> Wrote {
        match self.text.extend_from_slice(piece) {
            Ok(()) => Wrote::Took(piece.len()),
            Err(_) => Wrote::Memory,
        }
    }
}
