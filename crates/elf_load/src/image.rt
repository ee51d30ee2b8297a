//! What a file gives a board to load, and why an ELF file gives nothing.
use crate::bytes::Bytes;
use lab_num::{NoMemory, Rows};
use std::alloc::{AllocError, AllocFailed};

/// Bytes that stand one after another from an address on, and zeros after them.
#[derive(Clone, Drop)]
pub struct Part {
    /// The address of the first byte.
    pub at: u32,
    pub bytes: Bytes,
    /// How many bytes of 0 follow.
    pub zeros: u32,
}

/// What a file gives a board to load. Where two parts give a byte for one address, the later one
/// counts.
#[derive(Clone, Drop)]
pub struct Image {
    /// Where execution begins, if the file says so.
    pub entry: Option<u32>,
    pub parts: Rows<Part>,
}

/// Why an ELF file is refused. Of several causes the first in this order is told.
#[derive(Clone, Copy)]
pub enum ElfFault {
    /// The file is shorter than an ELF header, which has 52 bytes.
    Short,
    /// The file does not begin with the four bytes of ELF.
    NotElf,
    /// The file is not of the 32-bit class.
    Class,
    /// The file's numbers are not little-endian.
    Order,
    /// The machine is not RISC-V.
    Machine,
    /// The file is not an executable.
    FileType,
    /// The program headers are not of 32 bytes each, or pass the end of the file.
    Headers,
    /// A segment passes the end of the file, has more bytes in the file than in memory, or passes
    /// the end of the address space.
    Segment,
    /// Memory ran out.
    Memory,
}

impl From<AllocError> for ElfFault {
    ghost use Rattle.std.specs.Prelude.{◌≡◌};
    ghost use Rattle.elf_load.specs.declared.image.ElfFault.TheVariants.{Memory};

    ghost from_gives = { λ _ fault. fault ≡ Memory };

    fn from(_error: AllocError) -> ElfFault {
        ElfFault::Memory
    }
}

impl<T: Drop> From<AllocFailed<T>> for ElfFault {
    ghost use Rattle.std.specs.Prelude.{◌≡◌};
    ghost use Rattle.elf_load.specs.declared.image.ElfFault.TheVariants.{Memory};

    ghost from_gives = { λ _ fault. fault ≡ Memory };

    fn from(_error: AllocFailed<T>) -> ElfFault {
        ElfFault::Memory
    }
}

impl From<NoMemory> for ElfFault {
    ghost use Rattle.std.specs.Prelude.{◌≡◌};
    ghost use Rattle.elf_load.specs.declared.image.ElfFault.TheVariants.{Memory};

    ghost from_gives = { λ _ fault. fault ≡ Memory };

    fn from(_fault: NoMemory) -> ElfFault {
        ElfFault::Memory
    }
}
