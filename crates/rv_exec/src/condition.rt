//! The conditions of the branches (RISC-V Unprivileged ISA 20191213, section 2.5).
ghost use Rattle.std.specs.Prelude.{◌≡◌, true};
ghost use Rattle.rv_exec.specs.Inner.Groups.{IsTaken, is_branch};

use crate::alu::is_less;
use rv_decode::{Instr, Op};

/// Whether a conditional branch is taken, where its registers hold `a` and `b`.
#[tactic(auto, unfolding(crate::specs::Effect::effect_by))]
#[inline(always)]
pub fn is_taken(i: &Instr, a: u32, b: u32) -> bool
    requires { is_branch i.now.op ≡ true }
    ensures { IsTaken i.now a b result }
{
    match i.op {
        Op::Beq => a == b,
        Op::Bne => a != b,
        Op::Blt => is_less(a, b),
        Op::Bge => !is_less(a, b),
        Op::Bltu => a < b,
        Op::Bgeu => a >= b,
        _ => unreachable!(),
    }
}
