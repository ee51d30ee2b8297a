//! Files in memory, whose reads can be made to fail.
ghost use Rattle.std.specs.Prelude.{◌≡◌, ◌≢◌, ◌↔◌, ◌≤◌, ◌++◌, ◌∷◌, [], Some, IsNone, OnOk, OnErr, IsTrue, Contains};
ghost use Rattle.std.specs.Option.{option_copied};
ghost use Rattle.std.specs.FinMap as map;
ghost use Rattle.lab_io.specs.Known.{grown, Rose};
ghost use Rattle.lab_io.specs.Held.{IsReadAs, asks};
ghost use Rattle.lab_io.specs.FilesSeen.{IsToFail, after_read};

use crate::files::{Files, ReadAnswer};
use std::alloc::{AllocError, Global};
use std::collections::VecDeque;
use std::marker::Model;

/// A name and the bytes that it was given.
#[derive(Drop)]
struct Stored {
    name: String,
    bytes: Vec<u8>,
}

/// Files in memory. Each read has a number, counted from 0, and those that are listed fail.
/// The number stays at 2^64 - 1 once it is there.
#[derive(Drop)]
pub struct MemFiles {
    alloc: Global,
    /// The newest first, so that of two files of one name the newer is found.
    stored: VecDeque<Stored>,
    asked: Vec<String>,
    failing: Vec<u64>,
    calls: u64,
    faults: u64,
}

impl Model for MemFiles {
    ghost use Rattle.std.specs.Prelude.{map, string_bytes};
    ghost use Rattle.std.specs.FinMap.{from_entries};
    ghost use Rattle.lab_io.specs.FilesSeen.{FilesSeen, files_code, entry_of};

    ghost Value = { FilesSeen };

    ghost coded = { files_code };

    ghost view = { λ files. record {
      held = from_entries (map entry_of files.stored.items);
      asked = map string_bytes files.asked.items;
      failing = files.failing.items;
      calls = files.calls;
      faults = files.faults;
    } };
}

impl MemFiles {
    /// No name holds anything, and no read is to fail.
    pub fn new(alloc: Global) -> MemFiles
        ensures { result
            ≡ record { held = map.empty; asked = []; failing = []; calls = 0; faults = 0 } }
    {
        MemFiles {
            alloc,
            stored: VecDeque::new(alloc),
            asked: Vec::new(alloc),
            failing: Vec::new(alloc),
            calls: 0,
            faults: 0,
        }
    }

    /// Lets the name hold these bytes from now on, in place of those it held.
    pub fn put(&mut self, name: &str, bytes: &[u8]) -> Result<(), AllocError>
        ensures ok { OnOk result (self.new
            ≡ record self.old { held = map.insert self.old.held name.now bytes.now }) }
        ensures err { OnErr result (self.new ≡ self.old) }
    {
        let name = String::from_str(self.alloc, name)?;
        let bytes = Vec::from_slice(self.alloc, bytes)?;
        self.stored.push_front(Stored { name, bytes })?;
        Ok(())
    }

    /// Lets the read with this number fail.
    pub fn fail_at(&mut self, call: u64) -> Result<(), AllocError>
        ensures ok { OnOk result (self.new
            ≡ record self.old { failing = self.old.failing ++ call ∷ [] }) }
        ensures err { OnErr result (self.new ≡ self.old) }
    {
        self.failing.push(call)?;
        Ok(())
    }

    /// The bytes that a name holds.
    fn find(&self, name: &str) -> Option<&[u8]>
        ensures { option_copied result ≡ map.get self.now.held name.now }
    {
        for stored in &self.stored {
            if name == stored.name.as_str() {
                return Some(stored.bytes.as_slice());
            }
        }
        None
    }

    /// Gives the bytes of a name, if they are not too many.
    fn give(&self, name: &str, limit: usize, into: &mut Vec<u8>) -> ReadAnswer
        requires { into.old.items ≡ [] }
        ensures given { IsReadAs (Some self.now.held) name.now limit result into.new.items }
        ensures failed { result ≢ ReadAnswer.Memory →
            (result ≡ ReadAnswer.Failed ↔ IsNone (map.get self.now.held name.now)) }
    {
        match self.find(name) {
            None => ReadAnswer::Failed,
            Some(bytes) if bytes.len() > limit => ReadAnswer::TooLarge,
            Some(bytes) => match into.extend_from_slice(bytes) {
                Ok(()) => ReadAnswer::Done,
                Err(_) => ReadAnswer::Memory,
            },
        }
    }

    /// Whether the number of the read that comes next is listed.
    fn is_listed(&self) -> bool
        ensures { IsTrue result ↔ Contains self.now.failing self.now.calls }
    {
        self.failing.contains(&self.calls)
    }

    /// What the read that comes next answers and gives, as far as memory is found for it.
    fn answer(&self, name: &str, limit: usize, into: &mut Vec<u8>) -> ReadAnswer
        requires { into.old.items ≡ [] }
        ensures given { IsReadAs (Some self.now.held) name.now limit result into.new.items }
        ensures fails { result ≢ ReadAnswer.Memory →
            (result ≡ ReadAnswer.Failed ↔ IsToFail self.now name.now) }
    {
        if self.is_listed() {
            ReadAnswer::Failed
        } else {
            self.give(name, limit, into)
        }
    }

    /// Adds a name to those that were asked for.
    fn ask(&mut self, name: &str) -> Result<(), AllocError>
        ensures ok { OnOk result (self.new
            ≡ record self.old { asked = self.old.asked ++ name.now ∷ [] }) }
        ensures err { OnErr result (self.new ≡ self.old) }
    {
        let name = String::from_str(self.alloc, name)?;
        self.asked.push(name)?;
        Ok(())
    }

    /// Counts a read with its answer. One that finds no memory for its name has asked for none.
    fn note(&mut self, name: &str, answer: ReadAnswer) -> Result<(), AllocError>
        ensures ok { OnOk result (self.new ≡ after_read self.old name.now answer) }
        ensures err { OnErr result (self.new ≡ after_read self.old name.now ReadAnswer.Memory) }
        ensures faults { self.old.faults ≤ self.new.faults }
    {
        self.calls = self.calls.saturating_add(1);
        match answer {
            ReadAnswer::Done | ReadAnswer::TooLarge => self.ask(name),
            ReadAnswer::Failed => {
                self.ask(name)?;
                self.faults = self.faults.saturating_add(1);
                Ok(())
            }
            ReadAnswer::Memory => Ok(()),
        }
    }
}

impl Files for MemFiles {
    ghost held = { λ files. Some files.held };

    ghost asked = { λ files. Some files.asked };

    ghost faults = { λ files. files.faults };

    fn read(&mut self, name: &str, limit: usize, into: &mut Vec<u8>) -> ReadAnswer
        requires empty { into.old.items ≡ [] }
        requires limit { limit ≤ 67108864 }

        ensures bytes { IsReadAs (Some self.old.held) name.now limit result into.new.items }
        ensures failed { result ≡ ReadAnswer.Failed → Rose self.old.faults self.new.faults }

        ensures held { Some self.new.held ≡ Some self.old.held }
        ensures asked { Some self.new.asked ≡ grown (Some self.old.asked) (asks result name.now) }
        ensures faults { self.old.faults ≤ self.new.faults }

        // It fails exactly where it is to, unless it finds no memory.
        ensures fails { result ≢ ReadAnswer.Memory →
            (result ≡ ReadAnswer.Failed ↔ IsToFail self.old name.now) }
        ensures after { self.new ≡ after_read self.old name.now result }
    {
        let answer = self.answer(name, limit, into);
        match self.note(name, answer) {
            Ok(()) => answer,
            Err(_) => {
                into.clear();
                ReadAnswer::Memory
            }
        }
    }
}
