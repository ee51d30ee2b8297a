//! The numbers of the CSRs (RISC-V Privileged Architecture 20211203, tables 2.2 and 2.5).
ghost use Rattle.std.specs.Prelude.{◌≡◌};
ghost use Rattle.rv_hart.specs.Csr.{counter_of};

pub const MSTATUS: u32 = 0x300;

pub const MISA: u32 = 0x301;

pub const MIE: u32 = 0x304;

pub const MTVEC: u32 = 0x305;

pub const MSTATUSH: u32 = 0x310;

pub const MSCRATCH: u32 = 0x340;

pub const MEPC: u32 = 0x341;

pub const MCAUSE: u32 = 0x342;

pub const MTVAL: u32 = 0x343;

pub const MIP: u32 = 0x344;

pub const MCYCLE: u32 = 0xB00;

pub const MCYCLEH: u32 = 0xB80;

pub const MINSTRET: u32 = 0xB02;

pub const MINSTRETH: u32 = 0xB82;

pub const CYCLE: u32 = 0xC00;

pub const CYCLEH: u32 = 0xC80;

pub const TIME: u32 = 0xC01;

pub const TIMEH: u32 = 0xC81;

pub const INSTRET: u32 = 0xC02;

pub const INSTRETH: u32 = 0xC82;

pub const MVENDORID: u32 = 0xF11;

pub const MARCHID: u32 = 0xF12;

pub const MIMPID: u32 = 0xF13;

pub const MHARTID: u32 = 0xF14;

/// A counter that rises by itself.
#[derive(Clone, Copy)]
pub enum Counter {
    Mcycle,
    Minstret,
}

/// The counter of which a CSR is a half that can be written. The slot of an instruction that writes
/// the half does not raise the counter.
pub fn counter_of(number: u32) -> Option<Counter>
    ensures { result ≡ counter_of number }
{
    match number {
        MCYCLE | MCYCLEH => Some(Counter::Mcycle),
        MINSTRET | MINSTRETH => Some(Counter::Minstret),
        _ => None,
    }
}
