//! How an atomic instruction ends: by retiring or by an exception, and what the counters then are.
ghost use Rattle.std.specs.Prelude.{◌≡◌, ◌<◌};
ghost use Rattle.rv_hart.specs.Core.{finish};
ghost use Rattle.rv_exec.specs.Laws.{IsSameHart};
ghost use Rattle.rv_exec.specs.Outcome.{counted, retires, traps};
ghost use Rattle.rv_atomic.specs.AtomicEffect.{access_fault_cause, misaligned_cause};

use crate::atomic::AtomicOp;
use rv_hart::{Exception, Hart};

/// The cause of an address that is not divisible by 4.
pub fn misaligned_cause(op: AtomicOp) -> u32
    ensures { result ≡ misaligned_cause op }
{
    match op {
        AtomicOp::Lr => Exception::LoadAddressMisaligned.cause(),
        _ => Exception::StoreAddressMisaligned.cause(),
    }
}

/// The cause of an address at which no memory holds a word.
pub fn access_fault_cause(op: AtomicOp) -> u32
    ensures { result ≡ access_fault_cause op }
{
    match op {
        AtomicOp::Lr => Exception::LoadAccessFault.cause(),
        _ => Exception::StoreAccessFault.cause(),
    }
}

/// Writes a register, goes on to the next instruction, and counts this one.
#[tactic(auto, unfolding(rv_hart::specs::Core::finish, rv_hart::specs::Core::ticked, rv_hart::specs::Core::retired))]
pub fn retire(hart: &mut Hart, rd: u8, value: u32)
    requires { rd < 32 }
    ensures core { hart.new ≡ counted (retires (finish hart.old 4 rd value)) }
    ensures same { IsSameHart hart.old hart.new }
{
    hart.finish(4, rd, value);
    hart.retire();
    hart.tick();
}

/// Enters the trap of an exception, which is a cycle and no instruction.
#[cold]
#[inline(never)]
#[tactic(auto, unfolding(rv_hart::specs::Trap::enter, rv_hart::specs::Core::ticked))]
pub fn trap(hart: &mut Hart, cause: u32, value: u32)
    ensures core { hart.new ≡ counted (traps hart.old cause value) }
    ensures same { IsSameHart hart.old hart.new }
{
    hart.enter_trap(cause, value);
    hart.tick();
}
