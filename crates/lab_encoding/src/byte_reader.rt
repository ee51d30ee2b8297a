//! Bytes that are read from the front.
ghost use Rattle.std.specs.Prelude.{◌≡◌, ◌==◌, ◌<◌, ◌≤◌, length, take, drop, IfOk, IfErr, OnOk, Some, None};
ghost use Rattle.lab_encoding.specs.Combine.{after, byte_at_front};
ghost use Rattle.lab_encoding.specs.Reads.{Reads};

use crate::fault::SnapFault;
use std::marker::Model;

/// The bytes that are left, which contracts see as their list.
#[derive(Drop)]
pub struct ByteReader<'a> {
    rest: &'a [u8],
}

impl<'a> Model for ByteReader<'a> {
    ghost use Rattle.std.specs.Prelude.{List, ℕ};

    ghost Value = { List ℕ };

    ghost view = { λ s. s.rest.now };
}

impl<'a> ByteReader<'a> {
    pub fn new(bytes: &'a [u8]) -> ByteReader<'a>
        ensures { result ≡ bytes.now }
    {
        ByteReader { rest: bytes }
    }

    /// Whether no byte is left.
    pub fn is_empty(&self) -> bool
        ensures { result ≡ (length self.now == 0) }
    {
        self.rest.is_empty()
    }

    /// The next byte.
    pub fn byte(&mut self) -> Result<u8, SnapFault>
        ensures { Reads (byte_at_front self.old) self.new result }
    {
        let [first, rest @ ..] = self.rest else {
            return Err(SnapFault::Bad);
        };
        self.rest = rest;
        Ok(*first)
    }

    /// The next `count` bytes.
    pub fn front(&mut self, count: usize) -> Result<&'a [u8], SnapFault>
        ensures front { IfOk result (λ front. front.now ≡ take count self.old) }
        ensures rest { IfOk result (λ front. self.new ≡ drop count self.old) }
        ensures long { IfOk result (λ front. count ≤ length self.old) }
        ensures short { IfErr result (λ e. (e ≡ SnapFault.Bad) × (length self.old < count)) }
    {
        if self.rest.len() < count {
            return Err(SnapFault::Bad);
        }
        let (front, rest) = self.rest.split_at(count);
        self.rest = rest;
        Ok(front)
    }
    /// Passes over a mark, which is to stand in front.
    pub fn skip_mark(&mut self, mark: &[u8]) -> Result<(), SnapFault>
        ensures ok { OnOk result (after mark.now self.old ≡ Some self.new) }
        ensures err { IfErr result (λ e. (e ≡ SnapFault.Bad) × (after mark.now self.old ≡ None)) }
    {
        let front = self.front(mark.len())?;
        if front != mark {
            return Err(SnapFault::Bad);
        }
        Ok(())
    }
}
