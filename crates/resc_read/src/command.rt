//! The commands of a script, and why a line is none.
use lab_num::{Micros, NoMemory, Text};
use std::alloc::{AllocError, AllocFailed};

/// What a line of a script asks for. A `name`, `dev`, `hub` or `cpu` is its word without quotes; a
/// prefix `sysbus.` of it stays.
#[derive(Drop)]
pub enum Command {
    /// `mach create [name]`: make a board and select it.
    Create { name: Option<Text> },
    /// `mach set name`: select a board by its name or its number.
    Select { name: Text },
    /// `machine LoadPlatformDescription @path`: equip the board.
    LoadPlatform { path: Text },
    /// `machine Reset`: reset the board.
    Reset,
    /// `sysbus LoadELF @path`: load an ELF image and begin at its entry.
    LoadElf { path: Text },
    /// `sysbus LoadBinary @path at`: load bytes from an address on.
    LoadBinary { path: Text, at: u32 },
    /// `sysbus LoadHEX @path`: load an Intel HEX image.
    LoadHex { path: Text },
    /// `sysbus ReadDoubleWord at`: print a word of memory.
    ReadWord { at: u32 },
    /// `sysbus WriteDoubleWord at value`: store a word of memory.
    WriteWord { at: u32, value: u32 },
    /// `cpu PC [value]`: print or set the program counter.
    Pc { cpu: Text, value: Option<u32> },
    /// `cpu IsHalted [value]`: print or set whether the processor is halted.
    Halted { cpu: Text, value: Option<bool> },
    /// `cpu PerformanceInMips [value]`: print or set the instructions in a microsecond, 1 to 1000.
    Mips { cpu: Text, value: Option<u32> },
    /// `emulation SetGlobalQuantum length`: let rounds be this long, 1 µs to 1 s.
    Quantum { length: Micros },
    /// `emulation RunFor length`: run for this long, at most 10,000 s.
    RunFor { length: Micros },
    /// `emulation CreateUARTHub name [delay]`: make a hub of UARTs. It holds back what they send for
    /// 0 to 1 s, and 0 where no delay is written.
    UartHub { name: Text, delay: Micros },
    /// `emulation CreateCANHub name [delay]`: make a hub of CAN controllers, likewise.
    CanHub { name: Text, delay: Micros },
    /// `connector Connect dev hub`: put a device into a hub.
    Connect { dev: Text, hub: Text },
    /// `showAnalyzer dev`: show what a device sends.
    Show { dev: Text },
    /// `include @path`: take the lines of a file. The path is without its `@`.
    Include { path: Text },
    /// `runMacro $name`: take the lines of a macro. The name is without its `$`.
    RunMacro { name: Text },
    /// `Save @path`: keep the laboratory under a name. The path is without its `@`.
    Save { path: Text },
    /// `Load @path`: take back what is kept under a name.
    Load { path: Text },
    /// `using sysbus`, which has no effect.
    UsingSysbus,
    /// `pause`, which has no effect.
    Pause,
    /// `start`: run to the end that the command line sets.
    Start,
    /// `quit`: end the script.
    Quit,
}

/// What is wrong with a line that is no command.
#[derive(Clone, Copy)]
pub enum LineCause {
    /// Its first words are no command.
    Unknown,
    /// The number, the sort or the range of its other words is wrong.
    Arguments,
    /// A time is not of its form, or too long, or no quantum, or no delay.
    Time,
}

/// Why a line is not read as a command.
#[derive(Clone, Copy, PartialEq, Eq)]
pub enum LineFault {
    /// Its first words are no command.
    Unknown,
    /// The number, the sort or the range of its other words is wrong.
    Arguments,
    /// A time is not of its form, or too long, or no quantum, or no delay.
    Time,
    /// Memory ran out.
    Memory,
}

impl From<LineCause> for LineFault {
    ghost use Rattle.std.specs.Prelude.{◌≡◌};
    ghost use Rattle.resc_read.specs.Line.{fault_of};

    ghost from_gives = { λ cause fault. fault ≡ fault_of cause };

    fn from(cause: LineCause) -> LineFault {
        match cause {
            LineCause::Unknown => LineFault::Unknown,
            LineCause::Arguments => LineFault::Arguments,
            LineCause::Time => LineFault::Time,
        }
    }
}

impl From<NoMemory> for LineFault {
    ghost use Rattle.std.specs.Prelude.{◌≡◌};
    ghost use Rattle.resc_read.specs.declared.command.LineFault.TheVariants.{Memory};

    ghost from_gives = { λ _ fault. fault ≡ Memory };

    fn from(_error: NoMemory) -> LineFault {
        LineFault::Memory
    }
}

impl From<AllocError> for LineFault {
    ghost use Rattle.std.specs.Prelude.{◌≡◌};
    ghost use Rattle.resc_read.specs.declared.command.LineFault.TheVariants.{Memory};

    ghost from_gives = { λ _ fault. fault ≡ Memory };

    fn from(_error: AllocError) -> LineFault {
        LineFault::Memory
    }
}
