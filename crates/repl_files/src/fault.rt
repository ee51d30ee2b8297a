//! Why a platform's files are refused.
ghost use Rattle.std.specs.Prelude.{◌≡◌};
ghost use Rattle.repl_files.specs.Inner.Course.{IsFaultAt};

use lab_num::{NoMemory, Text};
use repl_read::PlatCause;
use std::alloc::{AllocError, AllocFailed, Global};

/// What is wrong with a platform file.
#[derive(Clone, Copy)]
pub enum FileCause {
    /// The line names a file, and 8 bodies are open, or 64 files were read.
    Depth,
    /// The file is not UTF-8. The line is that of the first byte after its longest prefix that is.
    Utf8,
    /// The line names a file of more than 16,777,216 bytes.
    Size,
    /// The text has a fault.
    Platform(PlatCause),
}

/// A fault of a platform file: its name, the line from 1 on, and the cause.
#[derive(Drop)]
pub struct FileFault {
    pub file: Text,
    pub line: u32,
    pub cause: FileCause,
}

/// Why a platform's files are not loaded.
#[derive(Drop)]
pub enum LoadFault {
    /// The first fault of a file.
    At(FileFault),
    /// The file that the command names has more than 16,777,216 bytes.
    TooLarge,
    /// A read failed, and the files counted it.
    Unread,
    /// Memory ran out.
    Memory,
}

/// A fault at a line of a file.
pub(crate) fn fault_at(alloc: Global, file: &str, line: u32, cause: FileCause) -> LoadFault
    ensures { IsFaultAt (record { file = file.now; line = line; cause = cause }) result }
{
    match Text::of(alloc, file) {
        Ok(file) => LoadFault::At(FileFault { file, line, cause }),
        Err(_) => LoadFault::Memory,
    }
}

impl From<NoMemory> for LoadFault {
    ghost use Rattle.std.specs.Prelude.{◌≡◌};
    ghost use Rattle.repl_files.specs.declared.fault.LoadFault.TheVariants.{Memory};

    ghost from_gives = { λ _ fault. fault ≡ Memory };

    fn from(_error: NoMemory) -> LoadFault {
        LoadFault::Memory
    }
}

impl From<AllocError> for LoadFault {
    ghost use Rattle.std.specs.Prelude.{◌≡◌};
    ghost use Rattle.repl_files.specs.declared.fault.LoadFault.TheVariants.{Memory};

    ghost from_gives = { λ _ fault. fault ≡ Memory };

    fn from(_error: AllocError) -> LoadFault {
        LoadFault::Memory
    }
}

impl<T: Drop> From<AllocFailed<T>> for LoadFault {
    ghost use Rattle.std.specs.Prelude.{◌≡◌};
    ghost use Rattle.repl_files.specs.declared.fault.LoadFault.TheVariants.{Memory};

    ghost from_gives = { λ _ fault. fault ≡ Memory };

    fn from(_error: AllocFailed<T>) -> LoadFault {
        LoadFault::Memory
    }
}
