//! Instructions: their names, their formats and their fields.
ghost use Rattle.std.specs.Prelude.{◌≡◌, Some};
ghost use Rattle.std.specs.Option.{option_map};
ghost use Rattle.rv_decode.specs.Table.{row_of};

/// An instruction's name, in the order of the listing in chapter 24 of the RISC-V Unprivileged ISA,
/// version 20191213: RV32I, Zifencei, Zicsr and M. The last two are of the RISC-V Privileged
/// Architecture, version 20211203.
#[derive(Clone, Copy, PartialEq, Eq)]
pub enum Op {
    // RV32I: upper immediates, jumps and branches
    Lui,
    Auipc,
    Jal,
    Jalr,
    Beq,
    Bne,
    Blt,
    Bge,
    Bltu,
    Bgeu,
    // RV32I: loads and stores
    Lb,
    Lh,
    Lw,
    Lbu,
    Lhu,
    Sb,
    Sh,
    Sw,
    // RV32I: a register and an immediate
    Addi,
    Slti,
    Sltiu,
    Xori,
    Ori,
    Andi,
    Slli,
    Srli,
    Srai,
    // RV32I: two registers
    Add,
    Sub,
    Sll,
    Slt,
    Sltu,
    Xor,
    Srl,
    Sra,
    Or,
    And,
    // RV32I: fences and calls
    Fence,
    Ecall,
    Ebreak,
    // Zifencei
    FenceI,
    // Zicsr
    Csrrw,
    Csrrs,
    Csrrc,
    Csrrwi,
    Csrrsi,
    Csrrci,
    // M
    Mul,
    Mulh,
    Mulhsu,
    Mulhu,
    Div,
    Divu,
    Rem,
    Remu,
    // privileged
    Mret,
    Wfi,
}

/// How the bits of a word are split into fields (RISC-V Unprivileged ISA, section 2.3).
#[derive(Clone, Copy)]
pub enum Format {
    R,
    I,
    /// I, where `imm` is the amount of a shift, bits 24 to 20.
    IShift,
    /// I, where `imm` is bits 31 to 20 without a sign: the number of a control and status register,
    /// or the sets of a fence. A 5-bit number in place of a register stands in `rs1`.
    IUnsigned,
    S,
    B,
    U,
    J,
    /// All bits are fixed, and there are no fields.
    Fixed,
}

/// An instruction and its fields. A field that the format lacks is 0.
///
/// `rd`, `rs1` and `rs2` are numbers of registers, 0 to 31. `imm` is the immediate, sign-extended
/// to 32 bits; in format U it is the word with its lower 12 bits cleared. In the variants of format
/// I it is as `Format` says.
#[derive(Clone, Copy, PartialEq, Eq)]
pub struct Instr {
    pub op: Op,
    pub rd: u8,
    pub rs1: u8,
    pub rs2: u8,
    pub imm: u32,
}

impl Op {
    /// The format of the instruction's words.
    #[tactic(auto, unfolding(crate::specs::Table::row_of))]
    #[inline(always)]
    pub fn format(self) -> Format
        ensures { option_map (λ row. row.format) (row_of self) ≡ Some result }
    {
        match self {
            Op::Add
            | Op::Sub
            | Op::Sll
            | Op::Slt
            | Op::Sltu
            | Op::Xor
            | Op::Srl
            | Op::Sra
            | Op::Or
            | Op::And
            | Op::Mul
            | Op::Mulh
            | Op::Mulhsu
            | Op::Mulhu
            | Op::Div
            | Op::Divu
            | Op::Rem
            | Op::Remu => Format::R,
            Op::Jalr
            | Op::Lb
            | Op::Lh
            | Op::Lw
            | Op::Lbu
            | Op::Lhu
            | Op::Addi
            | Op::Slti
            | Op::Sltiu
            | Op::Xori
            | Op::Ori
            | Op::Andi => Format::I,
            Op::Slli | Op::Srli | Op::Srai => Format::IShift,
            Op::Fence
            | Op::FenceI
            | Op::Csrrw
            | Op::Csrrs
            | Op::Csrrc
            | Op::Csrrwi
            | Op::Csrrsi
            | Op::Csrrci => Format::IUnsigned,
            Op::Sb | Op::Sh | Op::Sw => Format::S,
            Op::Beq | Op::Bne | Op::Blt | Op::Bge | Op::Bltu | Op::Bgeu => Format::B,
            Op::Lui | Op::Auipc => Format::U,
            Op::Jal => Format::J,
            Op::Ecall | Op::Ebreak | Op::Mret | Op::Wfi => Format::Fixed,
        }
    }
}

impl Instr {
    /// An instruction with these fields.
    pub(crate) fn from_fields(op: Op, rd: u8, rs1: u8, rs2: u8, imm: u32) -> Self
        ensures { result ≡ record { op = op; rd = rd; rs1 = rs1; rs2 = rs2; imm = imm } }
    {
        Self {
            op,
            rd,
            rs1,
            rs2,
            imm,
        }
    }
}
