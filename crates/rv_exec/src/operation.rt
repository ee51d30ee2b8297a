//! What the operations on registers give (RISC-V Unprivileged ISA 20191213, sections 2.4 and 7).
ghost use Rattle.std.specs.Prelude.{◌≡◌, ℕ, true};
ghost use Rattle.rv_exec.specs.Inner.Groups.{Gives, is_on_immediate, is_on_registers};

use crate::alu::{
    add, div, divu, mul, mulh, mulhsu, mulhu, rem, remu, sll, slt, sltu, sra, srl, sub,
};
use rv_decode::{Instr, Op};

/// What an operation on a register and an immediate gives, where the register holds `a`.
#[tactic(auto, unfolding(crate::specs::Effect::effect_by))]
#[inline(always)]
pub fn on_immediate(i: &Instr, a: u32) -> u32
    requires { is_on_immediate i.now.op ≡ true }
    ensures { (b : ℕ) → Gives i.now a b result }
{
    match i.op {
        Op::Addi => add(a, i.imm),
        Op::Slti => slt(a, i.imm),
        Op::Sltiu => sltu(a, i.imm),
        Op::Xori => a ^ i.imm,
        Op::Ori => a | i.imm,
        Op::Andi => a & i.imm,
        Op::Slli => sll(a, i.imm),
        Op::Srli => srl(a, i.imm),
        Op::Srai => sra(a, i.imm),
        _ => unreachable!(),
    }
}

/// What an operation on two registers gives, products and quotients among them, where they hold `a`
/// and `b`.
#[tactic(auto, unfolding(crate::specs::Effect::effect_by))]
#[inline(always)]
pub fn on_registers(i: &Instr, a: u32, b: u32) -> u32
    requires { is_on_registers i.now.op ≡ true }
    ensures { Gives i.now a b result }
{
    match i.op {
        Op::Add => add(a, b),
        Op::Sub => sub(a, b),
        Op::Sll => sll(a, b),
        Op::Slt => slt(a, b),
        Op::Sltu => sltu(a, b),
        Op::Xor => a ^ b,
        Op::Srl => srl(a, b),
        Op::Sra => sra(a, b),
        Op::Or => a | b,
        Op::And => a & b,
        Op::Mul => mul(a, b),
        Op::Mulh => mulh(a, b),
        Op::Mulhsu => mulhsu(a, b),
        Op::Mulhu => mulhu(a, b),
        Op::Div => div(a, b),
        Op::Divu => divu(a, b),
        Op::Rem => rem(a, b),
        Op::Remu => remu(a, b),
        _ => unreachable!(),
    }
}
