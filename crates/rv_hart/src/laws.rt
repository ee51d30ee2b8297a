//! Laws, each the contract of a function that does nothing.
ghost use Rattle.std.specs.Prelude.{◌≡◌};
ghost use Rattle.rv_hart.specs.Core.{reg};
ghost use Rattle.rv_hart.specs.Laws.{
  KeepsMcycle,
  KeepsMinstret,
  MepcReadsBack,
  ReadsBack,
  ReturnsMie,
  ReturnsToPc,
  StatusReadsBack,
};

use crate::cause::INTERRUPT_BITS;
use crate::hart::Hart;
use crate::numbers::{MCAUSE, MCYCLE, MCYCLEH, MIE, MINSTRET, MINSTRETH, MSCRATCH, MTVAL, MTVEC};

/// A return after the entry of a trap goes on as if there had been none.
#[tactic(auto, unfolding(crate::specs::Trap::enter, crate::specs::Trap::leave))]
pub fn return_after_entry()
    ensures pc { ReturnsToPc }
    ensures mie { ReturnsMie }
{}

/// x0 of every hart reads 0.
pub fn zero_register(hart: &Hart)
    ensures { reg hart.now 0 ≡ 0 }
{
    let _ = hart.register(0);
}

/// What is written to a CSR that holds a value is read back under its mask.
#[tactic(auto, unfolding(crate::specs::Csr::csr_read, crate::specs::Csr::csr_written))]
pub fn read_back()
    ensures mstatus_mie { StatusReadsBack 3 }
    ensures mstatus_mpie { StatusReadsBack 7 }
    ensures mie { ReadsBack MIE INTERRUPT_BITS }
    ensures mtvec { ReadsBack MTVEC 0xFFFFFFFD }
    ensures mscratch { ReadsBack MSCRATCH 0xFFFFFFFF }
    ensures mepc { MepcReadsBack }
    ensures mcause { ReadsBack MCAUSE 0xFFFFFFFF }
    ensures mtval { ReadsBack MTVAL 0xFFFFFFFF }
    ensures mcycle { ReadsBack MCYCLE 0xFFFFFFFF }
    ensures mcycleh { ReadsBack MCYCLEH 0xFFFFFFFF }
    ensures minstret { ReadsBack MINSTRET 0xFFFFFFFF }
    ensures minstreth { ReadsBack MINSTRETH 0xFFFFFFFF }
{}

/// A counter changes in a write of one of its own halves alone.
#[tactic(auto, unfolding(crate::specs::Csr::csr_written))]
pub fn counters_stay()
    ensures mcycle { KeepsMcycle }
    ensures minstret { KeepsMinstret }
{}
