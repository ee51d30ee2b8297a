//! Outputs in memory, and a terminal.
use lab_io::{MemSink, OutSink, Sink, WriteFault, write_whole};
use std::alloc::Global;
use std::cell::{Cell, RefCell};
use std::fmt::Display;
use std::io;
use std::test::Fail;

/// Pieces, and the answers to them: the first takes writes 0 and 1, the second none, and the second
/// write of the third fails.
static PIECES: [(&[u8], Result<(), WriteFault>); 5] = [
    (b"abc", Ok(())),
    (b"", Ok(())),
    (b"defgh", Err(WriteFault::Unwritten)),
    (b"i", Err(WriteFault::Unwritten)),
    (b"jk", Ok(())),
];

#[test]
fn pieces_are_written_whole_up_to_a_fault(rt: HostRuntime) -> Result<(), Fail> {
    let mut out = MemSink::new(rt.alloc(), 2);
    out.fail_at(3)?;
    out.fail_at(4)?;
    for (piece, answer) in &PIECES {
        assert!(rt; write_whole(&mut out, piece) == *answer, "{piece:?}");
    }
    assert_eq!(rt; out.bytes(), b"abcdejk".as_slice());
    Ok(())
}

/// A terminal that takes at most `most` bytes a write and `room` bytes in all. Once it has
/// taken them it takes nothing, and where `most` is 0 it is broken. Its first `signals` writes are
/// interrupted by a signal each.
#[derive(Drop)]
struct Terminal {
    signals: Cell<usize>,
    most: usize,
    room: usize,
    taken: RefCell<Vec<u8>>,
}

impl Print for Terminal {
    fn print<D: Display + Drop>(&self, _value: D) -> io::Result<()> {
        Ok(())
    }

    fn println<D: Display + Drop>(&self, _value: D) -> io::Result<()> {
        Ok(())
    }

    fn write_all(&self, _bytes: &[u8]) -> io::Result<()> {
        Ok(())
    }

    fn write_some(&self, bytes: &[u8]) -> io::Result<usize> {
        let signals = self.signals.get();
        self.signals.set(signals.saturating_sub(1));
        if signals > 0 {
            return Err(io::ErrorKind::Interrupted.into());
        }
        let Ok(mut taken) = self.taken.try_borrow_mut() else {
            return Err(io::ErrorKind::BrokenPipe.into());
        };
        if self.most == 0 {
            return Err(io::ErrorKind::BrokenPipe.into());
        }
        let left = self.room.saturating_sub(taken.len());
        let count = bytes.len().min(self.most).min(left);
        taken.extend_from_slice(&bytes[..count])?;
        Ok(count)
    }
}

/// How many writes of a terminal are interrupted, what it then takes a write and in all, the answer
/// to a piece of five bytes, and what is taken of it.
static TAKEN: [((usize, usize, usize), Result<(), WriteFault>, &[u8]); 7] = [
    ((0, 9, 9), Ok(()), b"abcde"),
    ((0, 2, 9), Ok(()), b"abcde"),
    ((0, 2, 3), Err(WriteFault::Unwritten), b"abc"),
    ((0, 2, 0), Err(WriteFault::Unwritten), b""),
    ((0, 0, 9), Err(WriteFault::Unwritten), b""),
    ((3, 2, 9), Ok(()), b"abcde"),
    ((3, 0, 9), Err(WriteFault::Unwritten), b""),
];

/// Whether a terminal answers so, and takes this.
fn takes(
    alloc: Global,
    (signals, most, room): (usize, usize, usize),
    answer: Result<(), WriteFault>,
    bytes: &[u8],
) -> bool {
    let taken = RefCell::new(Vec::new(alloc));
    let terminal = Terminal {
        signals: Cell::new(signals),
        most,
        room,
        taken,
    };
    let answered = write_whole(&mut OutSink::new(&terminal), b"abcde");
    match terminal.taken.try_borrow() {
        Ok(taken) => answered == answer && taken.as_slice() == bytes,
        Err(_) => false,
    }
}

#[test]
fn the_output_is_told_what_was_taken(rt: HostRuntime) {
    let alloc = rt.alloc();
    for (terminal, answer, bytes) in &TAKEN {
        assert!(rt; takes(alloc, *terminal, *answer, bytes), "{terminal:?}");
    }
    // The standard output itself.
    assert!(rt; write_whole(&mut OutSink::new(&rt), b"a line of a test\n") == Ok(()));
}
