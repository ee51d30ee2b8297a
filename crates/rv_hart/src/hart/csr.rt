//! The reads and writes of the CSRs.
ghost use Rattle.std.specs.Prelude.{◌≡◌, ◌&&◌, not, OnErr, is_ok, is_some, ok_or, unwrap_or};
ghost use Rattle.rv_hart.specs.Csr.{csr_read, csr_written, is_listed, is_read_only, status};

use crate::bits::is_set;
use crate::cause::INTERRUPT_BITS;
use crate::csr::{CsrFault, Lines};
use crate::hart::Hart;
use crate::numbers;
use lab_num::{high_half, low_half, with_high_half, with_low_half};

impl Hart {
    /// mstatus: MIE, MPIE, and MPP, which is always machine mode.
    fn mstatus(&self) -> u32
        ensures { result ≡ status self.now }
    {
        (u32::from(self.state.on) << 3) + (u32::from(self.state.before) << 7) + (0b11 << 11)
    }

    /// Reads a CSR (Privileged ISA 2.2 and 3.1). `lines` gives what mip, time and timeh read.
    #[tactic(auto, unfolding(crate::specs::Csr::csr_read, crate::specs::Csr::is_listed))]
    pub fn csr_read(&self, number: u32, lines: Lines) -> Result<u32, CsrFault>
        ensures value { result ≡ ok_or (csr_read self.now lines number) CsrFault.Illegal }
        ensures listed { is_ok result ≡ is_listed number }
    {
        match number {
            numbers::MSTATUS => Ok(self.mstatus()),
            numbers::MSTATUSH => Ok(0),
            numbers::MISA => Ok(self.state.letters.misa()),
            numbers::MIE => Ok(self.state.mie),
            numbers::MTVEC => Ok(self.state.mtvec),
            numbers::MSCRATCH => Ok(self.state.mscratch),
            numbers::MEPC => Ok(self.state.mepc),
            numbers::MCAUSE => Ok(self.state.mcause),
            numbers::MTVAL => Ok(self.state.mtval),
            numbers::MIP => Ok(lines.mip & INTERRUPT_BITS),
            numbers::MCYCLE | numbers::CYCLE => Ok(low_half(self.state.mcycle)),
            numbers::MCYCLEH | numbers::CYCLEH => Ok(high_half(self.state.mcycle)),
            numbers::MINSTRET | numbers::INSTRET => Ok(low_half(self.state.minstret)),
            numbers::MINSTRETH | numbers::INSTRETH => Ok(high_half(self.state.minstret)),
            numbers::TIME => Ok(low_half(lines.mtime)),
            numbers::TIMEH => Ok(high_half(lines.mtime)),
            numbers::MVENDORID | numbers::MARCHID | numbers::MIMPID => Ok(0),
            numbers::MHARTID => Ok(u32::from(self.state.number)),
            _ => Err(CsrFault::Illegal),
        }
    }

    /// Writes a CSR (Privileged ISA 2.2 and 3.1), of which the bits that it does not hold are
    /// ignored.
    #[tactic(auto, unfolding(crate::specs::Csr::csr_written, crate::specs::Csr::is_listed))]
    pub fn csr_write(&mut self, number: u32, value: u32) -> Result<(), CsrFault>
        ensures written { self.new ≡ unwrap_or (csr_written self.old number value) self.old }
        ensures answer { is_ok result ≡ is_some (csr_written self.old number value) }
        ensures refused { OnErr result (self.new ≡ self.old) }
        ensures letters { self.new.letters ≡ self.old.letters }
        ensures writable { is_ok result ≡ (is_listed number && not (is_read_only number)) }
    {
        match number {
            numbers::MSTATUS => {
                self.state.on = is_set(value, 3);
                self.state.before = is_set(value, 7);
            }
            numbers::MSTATUSH | numbers::MISA | numbers::MIP => {}
            numbers::MIE => self.state.mie = value & INTERRUPT_BITS,
            numbers::MTVEC => self.state.mtvec = value & !0b10,
            numbers::MSCRATCH => self.state.mscratch = value,
            numbers::MEPC => self.state.mepc = value & self.state.letters.return_bits(),
            numbers::MCAUSE => self.state.mcause = value,
            numbers::MTVAL => self.state.mtval = value,
            numbers::MCYCLE => self.state.mcycle = with_low_half(self.state.mcycle, value),
            numbers::MCYCLEH => self.state.mcycle = with_high_half(self.state.mcycle, value),
            numbers::MINSTRET => self.state.minstret = with_low_half(self.state.minstret, value),
            numbers::MINSTRETH => self.state.minstret = with_high_half(self.state.minstret, value),
            _ => return Err(CsrFault::Illegal),
        }
        Ok(())
    }
}
