//! The memories of a board.
ghost use Rattle.std.specs.Prelude.{◌≡◌, ◌+◌, ◌<◌, ◌≤◌, ◌%◌, length, take, IsTrue, IfOk, OnOk, OnErr};
ghost use Rattle.page_ram.specs.Bytes.{zeros};
ghost use Rattle.board_space.specs.Space.{memory_at, with_memory};
ghost use Rattle.board_space.specs.Words.{word_in};
ghost use Rattle.board_space.specs.Changes.{in_memory, holds_each, copied};
ghost use Rattle.board_space.specs.Copies.{CopiesPrefix, HasRoom, IsRoom};

use super::Space;
use dev_core::Device;
use lab_num::NoMemory;
use page_ram::PageRam;
use sys_bus::{Target, laws};

/// Bytes of a memory, from an address to the memory's end.
#[derive(Clone, Copy)]
struct Room {
    part: u8,
    /// The place of the address in the memory.
    at: u32,
    /// How many bytes follow from there on, at least one.
    size: u32,
}

impl<D: Device> Space<D> {
    /// The memory at an address, from there to its end.
    fn room_at(&self, at: u64) -> Option<Room>
        ensures { IsRoom self.now at result }
    {
        laws::bytes_of_a_region_belong_together();
        let regions = &self.regions;
        if at > u64::from(u32::MAX) {
            return None;
        }
        let at = at as u32;
        match regions.find(at, 1) {
            Target::Ram { part, at: place } => Some(Room {
                part,
                at: place,
                size: regions.room(at),
            }),
            _ => None,
        }
    }

    /// The same of an address that is known to be in a memory.
    fn room_from(&self, at: u64) -> Room
        requires { IsTrue (in_memory self.now at) }
        ensures { HasRoom self.now at result }
    {
        let Some(room) = self.room_at(at) else {
            unreachable!()
        };
        room
    }

    /// The bytes of a memory.
    pub fn memory(&self, part: u8) -> &PageRam
        requires { part < length self.now.memories }
        ensures { result.now ≡ memory_at self.now part }
    {
        &self.memories[usize::from(part)]
    }

    /// Puts another memory of the same size in the place of one.
    pub fn put_memory(&mut self, part: u8, memory: PageRam)
        requires part { part < length self.old.memories }
        requires size { length memory ≡ length (memory_at self.old part) }
        ensures { self.new ≡ with_memory self.old part memory }
    {
        self.memories[usize::from(part)] = memory;
    }

    /// The word of memory at an address. None where no memory holds all four bytes.
    pub fn word(&self, at: u32) -> Option<u32>
        requires { at % 4 ≡ 0 }
        ensures { result ≡ word_in self.now at }
    {
        match self.find(at, 4) {
            Target::Ram { part, at } => Some(self.word_of_memory(part, at)),
            _ => None,
        }
    }

    /// Whether each of `count` bytes from an address on lies in a memory.
    pub fn holds(&self, at: u32, count: u32) -> bool
        ensures { result ≡ holds_each self.now at count }
    {
        let mut next = u64::from(at);
        let mut left = count;
        while left > 0 {
            let Some(room) = self.room_at(next) else {
                return false;
            };
            if left <= room.size {
                return true;
            }
            next += u64::from(room.size);
            left -= room.size;
        }
        true
    }

    /// Writes bytes from an address on. After an `Err` some of the first of them are written.
    pub fn copy_in(&mut self, at: u32, bytes: &[u8]) -> Result<(), NoMemory>
        requires { IsTrue (holds_each self.old at (length bytes.now)) }
        ensures ok { OnOk result (self.new ≡ copied self.old at bytes.now) }
        ensures err { OnErr result (CopiesPrefix self.old self.new at bytes.now) }
    {
        let mut done = 0;
        while done < bytes.len() {
            done += self.copy_piece(u64::from(at) + done as u64, &bytes[done..])?;
        }
        Ok(())
    }

    /// Writes as many of the first of these bytes as the memory at the address has room for, and
    /// gives their number.
    fn copy_piece(&mut self, at: u64, bytes: &[u8]) -> Result<usize, NoMemory>
        requires memory { IsTrue (in_memory self.old at) }
        requires some { 0 < length bytes.now }
        ensures count { IfOk result (λ n. (0 < n) × (n ≤ length bytes.now)) }
        ensures ok { IfOk result (λ n. self.new ≡ copied self.old at (take n bytes.now)) }
        ensures err { OnErr result (CopiesPrefix self.old self.new at bytes.now) }
    {
        let room = self.room_from(at);
        let count = bytes.len().min(room.size as usize);
        self.memories[usize::from(room.part)].copy_in(room.at, &bytes[..count])?;
        Ok(count)
    }

    /// Puts 0 into `count` bytes from an address on.
    pub fn zero(&mut self, at: u32, count: u32)
        requires { IsTrue (holds_each self.old at count) }
        ensures { self.new ≡ copied self.old at (zeros count) }
    {
        let mut done = 0;
        while done < count {
            done += self.zero_piece(u64::from(at) + u64::from(done), count - done);
        }
    }

    /// Puts 0 into as many of so many bytes as the memory at the address has, and gives their
    /// number.
    fn zero_piece(&mut self, at: u64, count: u32) -> u32
        requires memory { IsTrue (in_memory self.old at) }
        requires some { 0 < count }
        ensures some { 0 < result }
        ensures most { result ≤ count }
        ensures after { self.new ≡ copied self.old at (zeros result) }
    {
        let room = self.room_from(at);
        let count = count.min(room.size);
        self.memories[usize::from(room.part)].zero(room.at, count);
        count
    }
}
