//! From a half-word to the instruction that it stands for.
#![tactic(auto, unfolding(crate::specs::Inner::ByFields::expansion_by))]

ghost use Rattle.std.specs.Prelude.{◌≡◌, ◌≢◌, ℕ, ◌+◌, ◌≤◌, Some, None, IfSome, count_by};
ghost use Rattle.rv_decode.specs.Immediate.{field};
ghost use Rattle.rv_decode.specs.Means.{IsValid};
ghost use Rattle.rvc_decode.specs.Immediate.{immediate_of, imm_shift, imm_jump, imm_branch};
ghost use Rattle.rvc_decode.specs.Table.{matches, table};
ghost use Rattle.rvc_decode.specs.Means.{expansion};
ghost use Rattle.rvc_decode.specs.Inner.ByFields.{expansion_by};

use crate::immediate::{
    immediate_addi4spn, immediate_addi16sp, immediate_branch, immediate_jump, immediate_lui,
    immediate_lwsp, immediate_shift, immediate_small, immediate_swsp, immediate_word,
};
use crate::register::{rd, rd_short, rs2, rs2_short};
use rv_decode::{Instr, Op, bits, laws};

/// The link register.
const LINK: u8 = 1;

/// The stack pointer.
const STACK: u8 = 2;

/// An instruction with a destination, one source and an immediate.
#[inline(always)]
fn with_immediate(op: Op, rd: u8, rs1: u8, imm: u32) -> Instr
    ensures { result ≡ record { op = op; rd = rd; rs1 = rs1; rs2 = 0; imm = imm } }
{
    Instr {
        op,
        rd,
        rs1,
        rs2: 0,
        imm,
    }
}

/// An instruction with a destination and two sources.
#[inline(always)]
fn with_registers(op: Op, rd: u8, rs1: u8, rs2: u8) -> Instr
    ensures { result ≡ record { op = op; rd = rd; rs1 = rs1; rs2 = rs2; imm = 0 } }
{
    Instr {
        op,
        rd,
        rs1,
        rs2,
        imm: 0,
    }
}

/// A store.
#[inline(always)]
fn store(rs1: u8, rs2: u8, imm: u32) -> Instr
    ensures { result ≡ record { op = Op.Sw; rd = 0; rs1 = rs1; rs2 = rs2; imm = imm } }
{
    Instr {
        op: Op::Sw,
        rd: 0,
        rs1,
        rs2,
        imm,
    }
}

/// A shift by an immediate, whose amount has five bits: bit 12 is reserved.
#[inline(always)]
fn shift(op: Op, rd: u8, half: u32) -> Option<Instr>
    ensures none { field half 12 1 ≢ 0 → result ≡ None }
    ensures some { field half 12 1 ≡ 0 →
        result ≡ Some (record { op = op; rd = rd; rs1 = rd; rs2 = 0; imm = immediate_of imm_shift half }) }
{
    match bits(half, 12, 1) {
        0 => Some(with_immediate(op, rd, rd, immediate_shift(half))),
        _ => None,
    }
}

/// C.ADDI4SPN.
#[inline(always)]
fn add_to_stack(half: u32) -> Option<Instr>
    ensures { result ≡ expansion_by 0 0 half }
{
    match immediate_addi4spn(half) {
        0 => None,
        imm => Some(with_immediate(Op::Addi, rs2_short(half), STACK, imm)),
    }
}

/// Quadrant 0, by funct3.
#[inline(always)]
fn quadrant_0(half: u32, funct3: u32) -> Option<Instr>
    ensures { result ≡ expansion_by 0 funct3 half }
{
    let rs1 = rd_short(half);
    let rs2 = rs2_short(half);
    match funct3 {
        0 => add_to_stack(half),
        2 => Some(with_immediate(Op::Lw, rs2, rs1, immediate_word(half))),
        6 => Some(store(rs1, rs2, immediate_word(half))),
        _ => None,
    }
}

/// C.ADDI16SP and C.LUI.
#[inline(always)]
fn stack_or_upper(half: u32) -> Option<Instr>
    ensures { result ≡ expansion_by 1 3 half }
{
    match rd(half) {
        STACK => match immediate_addi16sp(half) {
            0 => None,
            imm => Some(with_immediate(Op::Addi, STACK, STACK, imm)),
        },
        rd => match immediate_lui(half) {
            0 => None,
            imm => Some(with_immediate(Op::Lui, rd, 0, imm)),
        },
    }
}

/// C.SUB, C.XOR, C.OR and C.AND.
#[inline(always)]
fn two_short_registers(half: u32) -> Option<Instr>
    requires { field half 10 2 ≡ 3 }
    ensures { result ≡ expansion_by 1 4 half }
{
    let rd = rd_short(half);
    let rs2 = rs2_short(half);
    match (bits(half, 12, 1), bits(half, 5, 2)) {
        (0, 0) => Some(with_registers(Op::Sub, rd, rd, rs2)),
        (0, 1) => Some(with_registers(Op::Xor, rd, rd, rs2)),
        (0, 2) => Some(with_registers(Op::Or, rd, rd, rs2)),
        (0, _) => Some(with_registers(Op::And, rd, rd, rs2)),
        _ => None,
    }
}

/// Quadrant 1 with funct3 4: operations on x8 to x15.
#[inline(always)]
fn short_operation(half: u32) -> Option<Instr>
    ensures { result ≡ expansion_by 1 4 half }
{
    let rd = rd_short(half);
    match bits(half, 10, 2) {
        0 => shift(Op::Srli, rd, half),
        1 => shift(Op::Srai, rd, half),
        2 => Some(with_immediate(Op::Andi, rd, rd, immediate_small(half))),
        _ => two_short_registers(half),
    }
}

/// A jump.
#[inline(always)]
fn jump(rd: u8, half: u32) -> Instr
    ensures { result ≡ record { op = Op.Jal; rd = rd; rs1 = 0; rs2 = 0; imm = immediate_of imm_jump half } }
{
    with_immediate(Op::Jal, rd, 0, immediate_jump(half))
}

/// A branch, by a comparison with 0.
#[inline(always)]
fn branch(op: Op, half: u32) -> Instr
    ensures { let rs1 = 8 + field half 7 3 in
        result ≡ record { op = op; rd = 0; rs1 = rs1; rs2 = 0; imm = immediate_of imm_branch half } }
{
    with_immediate(op, 0, rd_short(half), immediate_branch(half))
}

/// Quadrant 1, by funct3.
#[inline(always)]
fn quadrant_1(half: u32, funct3: u32) -> Option<Instr>
    ensures { result ≡ expansion_by 1 funct3 half }
{
    let rd = rd(half);
    match funct3 {
        0 => Some(with_immediate(Op::Addi, rd, rd, immediate_small(half))),
        1 => Some(jump(LINK, half)),
        2 => Some(with_immediate(Op::Addi, rd, 0, immediate_small(half))),
        3 => stack_or_upper(half),
        4 => short_operation(half),
        5 => Some(jump(0, half)),
        6 => Some(branch(Op::Beq, half)),
        7 => Some(branch(Op::Bne, half)),
        _ => None,
    }
}

/// C.LWSP.
#[inline(always)]
fn load_from_stack(half: u32) -> Option<Instr>
    ensures { result ≡ expansion_by 2 2 half }
{
    let rd = rd(half);
    if rd == 0 {
        return None;
    }
    Some(with_immediate(Op::Lw, rd, STACK, immediate_lwsp(half)))
}

/// C.JR and C.MV.
#[inline(always)]
fn jump_or_move(half: u32) -> Option<Instr>
    requires { field half 12 1 ≡ 0 }
    ensures { result ≡ expansion_by 2 4 half }
{
    match (rd(half), rs2(half)) {
        (0, 0) => None,
        (rs1, 0) => Some(with_immediate(Op::Jalr, 0, rs1, 0)),
        (rd, rs2) => Some(with_registers(Op::Add, rd, 0, rs2)),
    }
}

/// C.EBREAK, C.JALR and C.ADD.
#[inline(always)]
fn break_call_or_add(half: u32) -> Instr
    requires { field half 12 1 ≡ 1 }
    ensures { Some result ≡ expansion_by 2 4 half }
{
    match (rd(half), rs2(half)) {
        (0, 0) => with_registers(Op::Ebreak, 0, 0, 0),
        (rs1, 0) => with_immediate(Op::Jalr, LINK, rs1, 0),
        (rd, rs2) => with_registers(Op::Add, rd, rd, rs2),
    }
}

/// Quadrant 2, by funct3.
#[inline(always)]
fn quadrant_2(half: u32, funct3: u32) -> Option<Instr>
    ensures { result ≡ expansion_by 2 funct3 half }
{
    match funct3 {
        0 => shift(Op::Slli, rd(half), half),
        2 => load_from_stack(half),
        4 => match bits(half, 12, 1) {
            0 => jump_or_move(half),
            _ => Some(break_call_or_add(half)),
        },
        6 => Some(store(STACK, rs2(half), immediate_swsp(half))),
        _ => None,
    }
}

/// The instruction of the row that the half-word matches, by quadrant.
#[inline(always)]
fn by_quadrant(half: u32) -> Option<Instr>
    ensures { result ≡ expansion_by (field half 0 2) (field half 13 3) half }
{
    let funct3 = bits(half, 13, 3);
    match bits(half, 0, 2) {
        0 => quadrant_0(half, funct3),
        1 => quadrant_1(half, funct3),
        2 => quadrant_2(half, funct3),
        _ => None,
    }
}

/// The instruction that the half-word stands for: the one row of the table that it matches, with the registers and
/// the immediate that the row says. `None` exactly where no row matches: at a form that is reserved or is of
/// floating-point numbers, and at the lower half of an instruction of four bytes, whose low two bits are 11.
#[tactic(auto)]
#[inline(always)]
pub fn expand(half: u16) -> Option<Instr>
    ensures value { result ≡ expansion half }
    ensures valid { IfSome result IsValid }
    ensures long { field half 0 2 ≡ 3 → result ≡ None }
{
    laws::rows_match_fields();
    by_quadrant(u32::from(half))
}

/// No half-word matches two rows of the table.
#[tactic(auto)]
pub fn rows_differ()
    ensures { (half : ℕ) → count_by (matches half) table ≤ 1 }
{}
