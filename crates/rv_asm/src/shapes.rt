//! The operands that each instruction takes.
ghost use Rattle.std.specs.Prelude.{◌≡◌};
ghost use Rattle.rv_asm.specs.Shapes.{shape_of};

use rv_decode::Op;

/// The shape of an instruction's operands.
#[derive(Clone, Copy)]
pub(crate) enum Shape {
    /// `rd, rs1, rs2`.
    Registers,
    /// `rd, rs1, number`, of 12 bits with a sign.
    Immediate,
    /// `rd, rs1, number`, an amount below 32.
    Shift,
    /// `rd, number(rs1)`.
    Load,
    /// `rs2, number(rs1)`.
    Store,
    /// `rs1, rs2, target`.
    Branch,
    /// `rd, number`, the upper 20 bits.
    Upper,
    /// `rd, target`.
    Jump,
    /// `rd, number, rs1`.
    Csr,
    /// `rd, number, number`, the second below 32.
    CsrImmediate,
    /// No operands.
    Bare,
}

/// The shape of the instruction's operands.
pub(crate) fn shape_of(op: Op) -> Shape
    ensures { result ≡ shape_of op }
{
    match op {
        Op::Addi | Op::Slti | Op::Sltiu | Op::Xori | Op::Ori | Op::Andi => Shape::Immediate,
        Op::Slli | Op::Srli | Op::Srai => Shape::Shift,
        Op::Jalr | Op::Lb | Op::Lh | Op::Lw | Op::Lbu | Op::Lhu => Shape::Load,
        Op::Sb | Op::Sh | Op::Sw => Shape::Store,
        Op::Beq | Op::Bne | Op::Blt | Op::Bge | Op::Bltu | Op::Bgeu => Shape::Branch,
        Op::Lui | Op::Auipc => Shape::Upper,
        Op::Jal => Shape::Jump,
        Op::Csrrw | Op::Csrrs | Op::Csrrc => Shape::Csr,
        Op::Csrrwi | Op::Csrrsi | Op::Csrrci => Shape::CsrImmediate,
        Op::Fence | Op::FenceI | Op::Ecall | Op::Ebreak | Op::Mret | Op::Wfi => Shape::Bare,
        _ => Shape::Registers,
    }
}
