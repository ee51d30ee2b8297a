//! A box or nothing, in one word: the only code of this crate that handles raw pointers.
ghost use Rattle.std.specs.Prelude.{◌≡◌, Option, Some, None, MatchOption, IsSome};
ghost use Rattle.std.specs.Borrow.{sem};
ghost use Rattle.page_ram.specs.Inner.Owned.{maybe_box_owns, maybe_box_shares, boxed_value};

use std::alloc::Global;
use std::marker::{Model, Send};
use std::ptr::null_mut;

/// A pointer to a value on the heap, or null. It owns what it points to, and frees it once.
pub struct MaybeBox<T> {
    at: *mut T,
    alloc: Global,
    pub ghost held: { Option T },
}

impl<T> Model for MaybeBox<T> {
    ghost also_owns = { λ b. maybe_box_owns T.row b.alloc b.at b.held };

    ghost also_shares = { λ b _ κ. maybe_box_shares T.row b.at b.held κ };
}

// It shares its value with nobody, so it goes where a value of type `T` may go.
unsafe impl<T: Send> Send for MaybeBox<T> {}

impl<T: Drop> MaybeBox<T> {
    /// Takes over a box, or nothing.
    pub fn make(alloc: Global, value: Option<Box<T>>) -> MaybeBox<T>
        ensures { result.held ≡ boxed_value value }
    {
        match value {
            None => MaybeBox {
                at: null_mut(),
                alloc,
            },
            Some(value) => MaybeBox {
                at: Box::into_raw(value),
                alloc,
            },
        }
    }
}

impl<T> MaybeBox<T> {
    ghost use Rattle.page_ram.specs.Inner.Lent.{lends_value};

    /// The value, if there is one.
    #[inline]
    pub fn load(&self) -> Option<&T>
        ensures { MatchOption result (self.now.held ≡ None) (λ x. self.now.held ≡ Some x.now) }
    {
        if self.at.is_null() {
            None
        } else {
            Some(unsafe { &*self.at })
        }
    }

    /// The value, to be written.
    #[inline]
    pub fn store(&mut self) -> &mut T
        requires { IsSome self.old.held }
        ensures* writes_back { sem 𝓛 (lends_value T.row self.entry result) }
        ensures value { self.old.held ≡ Some result.now }
    {
        unsafe { &mut *self.at }
    }

    /// The box, if there is one, by which its value is freed.
    fn into_box(self) -> Option<Box<T>>
        ensures { boxed_value result ≡ self.held }
    {
        let MaybeBox { at, alloc } = self;
        if at.is_null() {
            None
        } else {
            Some(unsafe { Box::from_raw(alloc, at) })
        }
    }
}

impl<T: Drop> Drop for MaybeBox<T> {
    fn drop(self) {
        drop(self.into_box());
    }
}
