//! A hart's state as plain data.
ghost use Rattle.std.specs.Prelude.{◌↔◌, IsTrue};
ghost use Rattle.rv_hart.specs.HartState.{IsHartState};

use crate::bits::is_set;
use crate::cause::INTERRUPT_BITS;
use crate::letters::Letters;

/// The most harts that a board has.
pub const MOST_HARTS: usize = 4;

/// All that a hart holds: its registers, the fields of the CSRs that hold a value, two switches, its
/// optional extensions and its number.
#[derive(Clone, Copy, PartialEq, Eq)]
pub struct HartState {
    /// x0 to x31, of which x0 is 0.
    pub registers: [u32; 32],
    /// Divisible by 4, or with compressed instructions by 2.
    pub pc: u32,
    /// The bit MIE of mstatus: interrupts are enabled.
    pub on: bool,
    /// The bit MPIE of mstatus: interrupts were enabled before the trap.
    pub before: bool,
    /// The interrupts that are enabled, at bits 3, 7 and 11; the other bits are 0.
    pub mie: u32,
    /// The base of the traps, and the mode at bit 0; bit 1 is 0.
    pub mtvec: u32,
    pub mscratch: u32,
    /// Divisible by 4, or with compressed instructions by 2.
    pub mepc: u32,
    pub mcause: u32,
    pub mtval: u32,
    pub mcycle: u64,
    pub minstret: u64,
    /// The hart waits for an interrupt, after WFI.
    pub waiting: bool,
    /// The board lets the hart do nothing.
    pub halted: bool,
    /// The optional extensions.
    pub letters: Letters,
    /// What mhartid reads.
    pub number: u8,
}

/// Whether a hart can have this state.
pub fn is_hart_state(s: &HartState) -> bool
    ensures { IsTrue result ↔ IsHartState s.now }
{
    s.registers[0] == 0
        && s.mie & INTERRUPT_BITS == s.mie
        && !is_set(s.mtvec, 1)
        && s.letters.aligns(s.mepc)
        && s.letters.aligns(s.pc)
}
