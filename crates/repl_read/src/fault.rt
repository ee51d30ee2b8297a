//! Why platform text is refused.
use lab_num::NoMemory;
use std::alloc::{AllocError, AllocFailed};

/// What is wrong with an entry or an item of a platform. Reading the text tells `Form` and
/// `Feature` alone; building a board from the entries tells the others.
#[derive(Clone, Copy)]
pub enum PlatCause {
    /// The line has no form of platform text.
    Form,
    /// The line asks for a feature of Renode's format that is left out.
    Feature,
    /// No peripheral has this type.
    TypeName,
    /// The type has no such attribute.
    Attribute,
    /// The value is of another sort or out of range.
    Value,
    /// An attribute or a registration that the type needs is absent.
    Missing,
    /// A name is given a type twice, or an attribute stands twice in one entry.
    Twice,
    /// A name is given no type, or is of a type that cannot stand here.
    Reference,
    /// Two peripherals overlap, or one passes the end of the address space.
    Overlap,
    /// The lines and pins of a wire do not fit.
    Line,
    /// There are too many or too few peripherals of one kind.
    Count,
    /// The processor is of a type that is not built.
    Core,
}

/// Why a platform is refused.
#[derive(Clone, Copy)]
pub enum PlatFault {
    /// The first fault: the number of its file, its line from 1 on, and the cause.
    At {
        file: u32,
        line: u32,
        cause: PlatCause,
    },
    /// Memory ran out.
    Memory,
}

/// What is wrong with a line of a text.
#[derive(Clone, Copy)]
pub(crate) enum ReadCause {
    Form,
    Feature,
}

/// Why a part of a text is not read.
#[derive(Clone, Copy)]
pub(crate) enum Fault {
    Cause(ReadCause),
    /// Memory ran out.
    Memory,
}

impl From<NoMemory> for Fault {
    ghost use Rattle.std.specs.Prelude.{◌≡◌};
    ghost use Rattle.repl_read.specs.declared.fault.Fault.TheVariants.{Memory};

    ghost from_gives = { λ _ fault. fault ≡ Memory };

    fn from(_error: NoMemory) -> Fault {
        Fault::Memory
    }
}

impl From<AllocError> for Fault {
    ghost use Rattle.std.specs.Prelude.{◌≡◌};
    ghost use Rattle.repl_read.specs.declared.fault.Fault.TheVariants.{Memory};

    ghost from_gives = { λ _ fault. fault ≡ Memory };

    fn from(_error: AllocError) -> Fault {
        Fault::Memory
    }
}

impl<T: Drop> From<AllocFailed<T>> for Fault {
    ghost use Rattle.std.specs.Prelude.{◌≡◌};
    ghost use Rattle.repl_read.specs.declared.fault.Fault.TheVariants.{Memory};

    ghost from_gives = { λ _ fault. fault ≡ Memory };

    fn from(_error: AllocFailed<T>) -> Fault {
        Fault::Memory
    }
}

impl From<NoMemory> for PlatFault {
    ghost use Rattle.std.specs.Prelude.{◌≡◌};
    ghost use Rattle.repl_read.specs.declared.fault.PlatFault.TheVariants.{Memory};

    ghost from_gives = { λ _ fault. fault ≡ Memory };

    fn from(_error: NoMemory) -> PlatFault {
        PlatFault::Memory
    }
}

impl From<AllocError> for PlatFault {
    ghost use Rattle.std.specs.Prelude.{◌≡◌};
    ghost use Rattle.repl_read.specs.declared.fault.PlatFault.TheVariants.{Memory};

    ghost from_gives = { λ _ fault. fault ≡ Memory };

    fn from(_error: AllocError) -> PlatFault {
        PlatFault::Memory
    }
}

impl<T: Drop> From<AllocFailed<T>> for PlatFault {
    ghost use Rattle.std.specs.Prelude.{◌≡◌};
    ghost use Rattle.repl_read.specs.declared.fault.PlatFault.TheVariants.{Memory};

    ghost from_gives = { λ _ fault. fault ≡ Memory };

    fn from(_error: AllocFailed<T>) -> PlatFault {
        PlatFault::Memory
    }
}
