//! Bytes that the parts of an image share.
ghost use Rattle.std.specs.Prelude.{◌≡◌, ◌≤◌, ◌+◌, IfOk, length, take, drop};

use lab_num::NoMemory;
use std::alloc::{AllocError, Global};
use std::fmt;
use std::marker::Model;
use std::rc::Rc;

/// A piece of bytes, which contracts see as the list of its own. Copies and further pieces share the
/// bytes.
#[derive(Drop)]
pub struct Bytes {
    all: Rc<Vec<u8>>,
    from: usize,
    len: usize,
}

impl Model for Bytes {
    ghost use Rattle.std.specs.Prelude.{ℕ, List, ◌≤◌, ◌+◌, length, take, drop};

    ghost Value = { List ℕ };

    ghost view = { λ b. take b.len (drop b.from b.all.value.items) };

    ghost invariant = { λ b. b.from + b.len ≤ length b.all.value.items };
}

impl Bytes {
    /// All of some bytes.
    pub fn of(alloc: Global, bytes: Vec<u8>) -> Result<Bytes, NoMemory>
        ensures { IfOk result (λ made. made ≡ bytes.items) }
    {
        let len = bytes.len();
        Ok(Bytes {
            all: Rc::new(alloc, bytes)?,
            from: 0,
            len,
        })
    }

    pub fn items(&self) -> &[u8]
        ensures { result.now ≡ self.now }
    {
        &self.all.as_slice()[self.from..self.from + self.len]
    }

    /// The piece of so many bytes from a place on.
    pub fn piece(&self, from: usize, len: usize) -> Result<Bytes, NoMemory>
        requires { from + len ≤ length self.now }
        ensures { IfOk result (λ made. made ≡ take len (drop from self.now)) }
    {
        Ok(Bytes {
            all: self.all.clone()?,
            from: self.from + from,
            len,
        })
    }
}

impl Clone for Bytes {
    ghost use Rattle.std.specs.Prelude.{◌≡◌};

    ghost is_clone = { λ bytes copy. copy ≡ bytes };

    fn clone(&self) -> Result<Bytes, AllocError> {
        Ok(Bytes {
            all: self.all.clone()?,
            from: self.from,
            len: self.len,
        })
    }
}

impl PartialEq for Bytes {
    ghost use Rattle.std.specs.Prelude.{nat_eq};
    ghost use Rattle.std.specs.Cmp.{partial_equiv_from_equiv};
    ghost use Rattle.std.specs.Cmp.Lexicographic.{pointwise, nat_list_eq_equiv};

    ghost eq = { pointwise nat_eq };

    ghost laws = { partial_equiv_from_equiv nat_list_eq_equiv };

    fn eq(&self, other: &Bytes) -> bool {
        self.items() == other.items()
    }
}

impl Eq for Bytes {
    ghost use Rattle.std.specs.Cmp.Lexicographic.{nat_list_eq_equiv};

    ghost laws = { nat_list_eq_equiv };
}

impl fmt::Debug for Bytes {
    fn fmt<W: fmt::Write>(&self, f: &mut fmt::Formatter<W>) -> fmt::Result {
        self.items().fmt(f)
    }
}
