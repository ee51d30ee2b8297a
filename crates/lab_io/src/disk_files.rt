//! The real files, relative to the working folder.
ghost use Rattle.std.specs.Prelude.{◌≡◌, ◌≢◌, ◌<◌, ◌≤◌, ◌⊎◌, [], length, None, IfSome};
ghost use Rattle.lab_io.specs.Known.{Rose};
ghost use Rattle.lab_io.specs.Held.{IsReadAs, read_faults};

use crate::files::{Files, ReadAnswer};
use std::io::{ErrorKind, Read};
use std::marker::Model;
use std::{fs, rt};

/// What an error of a read is answered as.
fn answer_to(kind: ErrorKind) -> ReadAnswer
    ensures { (result ≡ ReadAnswer.Memory) ⊎ (result ≡ ReadAnswer.Failed) }
{
    if kind == ErrorKind::OutOfMemory {
        ReadAnswer::Memory
    } else {
        ReadAnswer::Failed
    }
}

/// Reads a source whole, if it has at most `limit` bytes.
fn read_whole<S: Read + Drop>(source: S, limit: usize, into: &mut Vec<u8>) -> ReadAnswer
    requires empty { into.old.items ≡ [] }
    requires limit { limit ≤ 67108864 }
    ensures within { result ≡ ReadAnswer.Done → length into.new.items ≤ limit }
    ensures whole { result ≡ ReadAnswer.Done →
        IfSome (S.remaining source) (λ bytes. into.new.items ≡ bytes) }
    ensures too_large { result ≡ ReadAnswer.TooLarge →
        IfSome (S.remaining source) (λ bytes. limit < length bytes) }
    ensures empty { result ≢ ReadAnswer.Done → into.new.items ≡ [] }
{
    let answer = match source.take(limit as u64 + 1).read_to_end(into) {
        Ok(_) if into.len() <= limit => return ReadAnswer::Done,
        Ok(_) => ReadAnswer::TooLarge,
        Err(error) => answer_to(error.kind()),
    };
    into.clear();
    answer
}

/// Reads the file of a name whole, if it has at most `limit` bytes.
fn read_named<R: rt::Files>(rt: &R, name: &str, limit: usize, into: &mut Vec<u8>) -> ReadAnswer
    requires empty { into.old.items ≡ [] }
    requires limit { limit ≤ 67108864 }
    ensures { IsReadAs None name.now limit result into.new.items }
{
    match fs::open(rt, name) {
        Ok(file) => read_whole(file, limit, into),
        Err(_) => ReadAnswer::Failed,
    }
}

/// The real files, relative to the working folder. What they hold is not told: of them contracts
/// see how many faults there have been.
#[derive(Drop)]
pub struct DiskFiles<'a, R> {
    rt: &'a R,
    faults: u64,
}

impl<'a, R> Model for DiskFiles<'a, R> {
    ghost use Rattle.std.specs.Prelude.{ℕ};

    ghost Value = { ℕ };

    ghost view = { λ files. files.faults };
}

impl<'a, R: rt::Files> DiskFiles<'a, R> {
    /// There has been no fault yet.
    pub fn new(rt: &'a R) -> DiskFiles<'a, R>
        ensures { result ≡ 0 }
    {
        DiskFiles { rt, faults: 0 }
    }
}

impl<R: rt::Files> Files for DiskFiles<'_, R> {
    ghost held = { λ _. None };

    ghost asked = { λ _. None };

    ghost faults = { λ faults. faults };

    /// A file that cannot be opened or read is a fault. It may change while it is read.
    fn read(&mut self, name: &str, limit: usize, into: &mut Vec<u8>) -> ReadAnswer
        requires empty { into.old.items ≡ [] }
        requires limit { limit ≤ 67108864 }

        ensures bytes { IsReadAs None name.now limit result into.new.items }
        ensures failed { result ≡ ReadAnswer.Failed → Rose self.old self.new }

        ensures faults { self.old ≤ self.new }

        ensures counted { self.new ≡ read_faults result self.old }
    {
        let answer = read_named(self.rt, name, limit, into);
        if answer == ReadAnswer::Failed {
            self.faults = self.faults.saturating_add(1);
        }
        answer
    }
}
