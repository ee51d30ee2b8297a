//! The causes of traps in machine mode (RISC-V Privileged Architecture 20211203, table 3.6).
ghost use Rattle.std.specs.Prelude.{◌≡◌};
ghost use Rattle.rv_hart.specs.Cause.{cause_of};

/// The exceptions of a hart with machine mode alone and no virtual memory.
#[derive(Clone, Copy)]
pub enum Exception {
    InstructionAddressMisaligned = 0,
    InstructionAccessFault = 1,
    IllegalInstruction = 2,
    Breakpoint = 3,
    LoadAddressMisaligned = 4,
    LoadAccessFault = 5,
    StoreAddressMisaligned = 6,
    StoreAccessFault = 7,
    EnvironmentCall = 11,
}

impl Exception {
    /// The cause that mcause shows.
    pub fn cause(self) -> u32
        ensures { result ≡ cause_of self }
    {
        self as u32
    }
}

/// The interrupts, by their bit in mip and mie.
pub const SOFTWARE_INTERRUPT: u8 = 3;

pub const TIMER_INTERRUPT: u8 = 7;

pub const EXTERNAL_INTERRUPT: u8 = 11;

/// The bits of the interrupts in mip and mie.
pub const INTERRUPT_BITS: u32 = 1 << SOFTWARE_INTERRUPT
    | 1 << TIMER_INTERRUPT
    | 1 << EXTERNAL_INTERRUPT;

/// The bit of a cause that says that the trap is an interrupt.
pub const INTERRUPT: u32 = 1 << 31;
