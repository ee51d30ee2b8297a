//! Why bytes could not be read.
ghost use Rattle.std.specs.Prelude.{◌≡◌};
ghost use Rattle.lab_encoding.specs.declared.fault.SnapFault.TheVariants.{Memory};

use lab_num::NoMemory;
use std::alloc::{AllocError, AllocFailed};

/// Why bytes could not be read.
#[derive(Clone, Copy, PartialEq, Eq)]
pub enum SnapFault {
    /// The bytes are no spelling.
    Bad,
    /// Memory ran out.
    Memory,
}

impl From<AllocError> for SnapFault {
    ghost from_gives = { λ _ e. e ≡ Memory };

    fn from(_error: AllocError) -> SnapFault {
        SnapFault::Memory
    }
}

impl<T: Drop> From<AllocFailed<T>> for SnapFault {
    ghost from_gives = { λ _ e. e ≡ Memory };

    fn from(_error: AllocFailed<T>) -> SnapFault {
        SnapFault::Memory
    }
}

impl From<NoMemory> for SnapFault {
    ghost from_gives = { λ _ e. e ≡ Memory };

    fn from(_error: NoMemory) -> SnapFault {
        SnapFault::Memory
    }
}
