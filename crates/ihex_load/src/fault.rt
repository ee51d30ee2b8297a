//! Why an Intel HEX file is refused.
use lab_num::NoMemory;
use std::alloc::{AllocError, AllocFailed};

/// Why an Intel HEX file is refused. The first line that has a fault tells it. Of one line a wrong
/// form is told first, then a count that its digits do not have, the sum, the type, and a count
/// that its type does not have.
#[derive(Clone, Copy)]
pub enum HexFault {
    /// The line is not `:` and an even number, at least 10, of hexadecimal digits.
    Form,
    /// The bytes of the record do not add up to 0 modulo 256.
    Sum,
    /// No record ends the file.
    NoEnd,
    /// The type of the record is above 05.
    Kind,
    /// The record has not as many data bytes as it says, or as its type has.
    Length,
    /// Memory ran out.
    Memory,
}

impl From<AllocError> for HexFault {
    ghost use Rattle.std.specs.Prelude.{◌≡◌};
    ghost use Rattle.ihex_load.specs.declared.fault.HexFault.TheVariants.{Memory};

    ghost from_gives = { λ _ fault. fault ≡ Memory };

    fn from(_error: AllocError) -> HexFault {
        HexFault::Memory
    }
}

impl<T: Drop> From<AllocFailed<T>> for HexFault {
    ghost use Rattle.std.specs.Prelude.{◌≡◌};
    ghost use Rattle.ihex_load.specs.declared.fault.HexFault.TheVariants.{Memory};

    ghost from_gives = { λ _ fault. fault ≡ Memory };

    fn from(_error: AllocFailed<T>) -> HexFault {
        HexFault::Memory
    }
}

impl From<NoMemory> for HexFault {
    ghost use Rattle.std.specs.Prelude.{◌≡◌};
    ghost use Rattle.ihex_load.specs.declared.fault.HexFault.TheVariants.{Memory};

    ghost from_gives = { λ _ fault. fault ≡ Memory };

    fn from(_fault: NoMemory) -> HexFault {
        HexFault::Memory
    }
}
