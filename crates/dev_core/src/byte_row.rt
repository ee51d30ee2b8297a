//! Up to sixteen bytes in a row of fixed size.
ghost use Rattle.std.specs.Prelude.{◌≡◌, ◌≤◌, ◌<◌, ◌↔◌, IsTrue, [], ◌∷◌, ◌++◌, length, drop, slice_get};

use std::marker::Model;

/// Up to sixteen bytes, which contracts see as their list.
#[derive(Clone, Copy)]
pub struct ByteRow {
    bytes: [u8; 16],
    count: usize,
}

impl Model for ByteRow {
    ghost use Rattle.std.specs.Prelude.{ℕ, List};

    ghost Value = { List ℕ };

    ghost use Rattle.dev_core.specs.Inner.ByteRow.{bytes_of, row_of, IsRow, row_of-bytes_of};

    ghost view = { bytes_of };

    ghost invariant = { IsRow };

    ghost inverse = { row_of };

    ghost inverse_ok = { row_of-bytes_of };
}

impl ByteRow {
    /// No bytes.
    pub fn new() -> ByteRow
        ensures { result ≡ [] }
    {
        ByteRow {
            bytes: [0; 16],
            count: 0,
        }
    }

    /// These bytes.
    pub fn of(bytes: &[u8]) -> ByteRow
        requires { length bytes.now ≤ 16 }
        ensures { result ≡ bytes.now }
    {
        let mut row = ByteRow::new();
        for &byte in bytes {
            row.push(byte);
        }
        row
    }

    /// The bytes in their order.
    pub fn items(&self) -> &[u8]
        ensures items { result.now ≡ self.now }
        ensures fits { length result.now ≤ 16 }
    {
        &self.bytes[..self.count]
    }

    pub fn len(&self) -> usize
        ensures length { result ≡ length self.now }
        ensures fits { result ≤ 16 }
    {
        self.count
    }

    pub fn is_empty(&self) -> bool
        ensures { IsTrue result ↔ (self.now ≡ []) }
    {
        self.count == 0
    }

    /// Puts a byte at the end.
    pub fn push(&mut self, byte: u8)
        requires { length self.old < 16 }
        ensures { self.new ≡ self.old ++ byte ∷ [] }
    {
        self.bytes[self.count] = byte;
        self.count += 1;
    }

    /// Takes the first byte out, if there is one.
    pub fn pop_first(&mut self) -> Option<u8>
        ensures first { result ≡ slice_get self.old 0 }
        ensures rest { self.new ≡ drop 1 self.old }
    {
        let (&first, rest) = self.items().split_first()?;
        *self = ByteRow::of(rest);
        Some(first)
    }
}

impl PartialEq for ByteRow {
    ghost use Rattle.std.specs.Prelude.{nat_eq};
    ghost use Rattle.std.specs.Cmp.{partial_equiv_from_equiv};
    ghost use Rattle.std.specs.Cmp.Lexicographic.{pointwise, nat_list_eq_equiv};

    ghost eq = { pointwise nat_eq };

    ghost laws = { partial_equiv_from_equiv nat_list_eq_equiv };

    fn eq(&self, other: &ByteRow) -> bool {
        self.items() == other.items()
    }
}

impl Eq for ByteRow {
    ghost use Rattle.std.specs.Cmp.Lexicographic.{nat_list_eq_equiv};

    ghost laws = { nat_list_eq_equiv };
}
