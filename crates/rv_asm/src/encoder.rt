//! From an instruction to its word.
ghost use Rattle.std.specs.Prelude.{◌≡◌, ℕ, ◌^◌, ◌<◌, ◌↔◌, Some, IsTrue};
ghost use Rattle.std.specs.Option.{option_map};
ghost use Rattle.rv_decode.specs.Table.{row_of};
ghost use Rattle.rv_decode.specs.Immediate.{field};
ghost use Rattle.rv_decode.specs.Means.{means, IsInstr, IsValid};
ghost use Rattle.rv_asm.specs.Encoded.{encoded, placed_s, placed_b, placed_j};
ghost use Rattle.rv_asm.specs.Inner.Fields.{Fit, with_op};

use rv_decode::{Format, Instr, Op, bits, decode, laws};

/// Bits 6 to 0 of the instruction's words.
#[tactic(auto, unfolding(rv_decode::specs::Table::row_of))]
fn opcode(op: Op) -> u32
    ensures value { option_map (λ row. field row.bits 0 7) (row_of op) ≡ Some result }
    ensures fits { result < 2 ^ 7 }
{
    match op {
        Op::Lui => 0x37,
        Op::Auipc => 0x17,
        Op::Jal => 0x6F,
        Op::Jalr => 0x67,
        Op::Beq | Op::Bne | Op::Blt | Op::Bge | Op::Bltu | Op::Bgeu => 0x63,
        Op::Lb | Op::Lh | Op::Lw | Op::Lbu | Op::Lhu => 0x03,
        Op::Sb | Op::Sh | Op::Sw => 0x23,
        Op::Addi
        | Op::Slti
        | Op::Sltiu
        | Op::Xori
        | Op::Ori
        | Op::Andi
        | Op::Slli
        | Op::Srli
        | Op::Srai => 0x13,
        Op::Fence | Op::FenceI => 0x0F,
        Op::Ecall
        | Op::Ebreak
        | Op::Mret
        | Op::Wfi
        | Op::Csrrw
        | Op::Csrrs
        | Op::Csrrc
        | Op::Csrrwi
        | Op::Csrrsi
        | Op::Csrrci => 0x73,
        _ => 0x33,
    }
}

/// Bits 14 to 12 of the instruction's words, 0 where a field stands there.
#[tactic(auto, unfolding(rv_decode::specs::Table::row_of))]
fn funct3(op: Op) -> u32
    ensures value { option_map (λ row. field row.bits 12 3) (row_of op) ≡ Some result }
    ensures fits { result < 2 ^ 3 }
{
    match op {
        Op::Bne | Op::Lh | Op::Sh | Op::Slli | Op::Sll | Op::FenceI | Op::Csrrw | Op::Mulh => 1,
        Op::Lw | Op::Sw | Op::Slti | Op::Slt | Op::Csrrs | Op::Mulhsu => 2,
        Op::Sltiu | Op::Sltu | Op::Csrrc | Op::Mulhu => 3,
        Op::Blt | Op::Lbu | Op::Xori | Op::Xor | Op::Div => 4,
        Op::Bge | Op::Lhu | Op::Srli | Op::Srai | Op::Srl | Op::Sra | Op::Csrrwi | Op::Divu => 5,
        Op::Bltu | Op::Ori | Op::Or | Op::Csrrsi | Op::Rem => 6,
        Op::Bgeu | Op::Andi | Op::And | Op::Csrrci | Op::Remu => 7,
        _ => 0,
    }
}

/// Bits 31 to 25 of the instruction's words, 0 where a field stands there.
#[tactic(auto, unfolding(rv_decode::specs::Table::row_of))]
fn funct7(op: Op) -> u32
    ensures value { option_map (λ row. field row.bits 25 7) (row_of op) ≡ Some result }
    ensures fits { result < 2 ^ 7 }
{
    match op {
        Op::Mul | Op::Mulh | Op::Mulhsu | Op::Mulhu | Op::Div | Op::Divu | Op::Rem | Op::Remu =>
            0x01,
        Op::Wfi => 0x08,
        Op::Mret => 0x18,
        Op::Srai | Op::Sub | Op::Sra => 0x20,
        _ => 0x00,
    }
}

/// The word of an instruction without fields.
#[tactic(auto, unfolding(rv_decode::specs::Table::row_of))]
fn fixed_word(op: Op) -> u32
    ensures { option_map (λ row. row.format) (row_of op) ≡ Some Format.Fixed →
        option_map (λ row. row.bits) (row_of op) ≡ Some result }
{
    match op {
        Op::Ecall => 0x0000_0073,
        Op::Ebreak => 0x0010_0073,
        Op::Mret => 0x3020_0073,
        Op::Wfi => 0x1050_0073,
        _ => 0,
    }
}

/// The immediate of format S, in the places of its bits.
fn place_s(imm: u32) -> u32
    ensures { result ≡ placed_s imm }
{
    (bits(imm, 0, 5) << 7) + (bits(imm, 5, 7) << 25)
}

/// The immediate of format B, in the places of its bits.
fn place_b(imm: u32) -> u32
    ensures { result ≡ placed_b imm }
{
    (bits(imm, 11, 1) << 7)
        + (bits(imm, 1, 4) << 8)
        + (bits(imm, 5, 6) << 25)
        + (bits(imm, 12, 1) << 31)
}

/// The immediate of format J, in the places of its bits.
fn place_j(imm: u32) -> u32
    ensures { result ≡ placed_j imm }
{
    (bits(imm, 12, 8) << 12)
        + (bits(imm, 11, 1) << 20)
        + (bits(imm, 1, 10) << 21)
        + (bits(imm, 20, 1) << 31)
}

/// The fields of an instruction; the immediate as `Instr` has it.
pub(crate) struct Fields {
    pub(crate) rd: u32,
    pub(crate) rs1: u32,
    pub(crate) rs2: u32,
    pub(crate) imm: u32,
}

/// The word that has these fields in the places of the instruction's format.
pub(crate) fn word_of(op: Op, fields: Fields) -> u32
    requires { Fit fields }
    ensures { encoded (with_op op fields) ≡ Some result }
{
    let Fields { rd, rs1, rs2, imm } = fields;
    let code = opcode(op);
    let low = code + (funct3(op) << 12);
    let high = funct7(op) << 25;
    let rd = rd << 7;
    let rs1 = rs1 << 15;
    let rs2 = rs2 << 20;
    match op.format() {
        Format::R => low + high + rd + rs1 + rs2,
        Format::I | Format::IUnsigned => low + rd + rs1 + (bits(imm, 0, 12) << 20),
        Format::IShift => low + high + rd + rs1 + (bits(imm, 0, 5) << 20),
        Format::S => low + rs1 + rs2 + place_s(imm),
        Format::B => low + rs1 + rs2 + place_b(imm),
        Format::U => code + rd + (bits(imm, 12, 20) << 12),
        Format::J => code + rd + place_j(imm),
        Format::Fixed => fixed_word(op),
    }
}

/// The word that has the instruction's fields in the places of its format.
fn word_with(i: &Instr) -> u32
    requires { IsInstr i.now }
    ensures { encoded i.now ≡ Some result }
{
    word_of(
        i.op,
        Fields {
            rd: u32::from(i.rd),
            rs1: u32::from(i.rs1),
            rs2: u32::from(i.rs2),
            imm: i.imm,
        },
    )
}

/// Whether the numbers of the registers are below 32.
fn fits(i: &Instr) -> bool
    ensures { IsTrue result ↔ IsInstr i.now }
{
    // any 32 bits may be an immediate
    let _imm = i.imm;
    i.rd < 32 && i.rs1 < 32 && i.rs2 < 32
}

/// Whether two instructions are one.
fn is_same(a: &Instr, b: &Instr) -> bool
    ensures { IsTrue result ↔ (a.now ≡ b.now) }
{
    a == b
}

/// Whether the word means the instruction.
fn is_meant(word: u32, i: &Instr) -> bool
    ensures { IsTrue result ↔ (means word ≡ Some i.now) }
{
    match decode(word) {
        Some(meant) => is_same(&meant, i),
        None => false,
    }
}

/// The word of a valid instruction, with its fields in the places of its format (RISC-V
/// Unprivileged ISA 20191213, section 2.3). It is the inverse of `decode`.
pub fn encode(i: &Instr) -> u32
    requires { IsValid i.now }
    ensures meaning { means result ≡ Some i.now }
    ensures inverse { (word : ℕ) → word < 2 ^ 32 → means word ≡ Some i.now → result ≡ word }
{
    laws::rows_differ();
    laws::rows_match_fields();
    laws::valid_fits();
    word_with(i)
}

/// Whether some word means the instruction, as `encode` requires.
pub fn is_valid(i: &Instr) -> bool
    ensures { IsTrue result ↔ IsValid i.now }
{
    laws::rows_differ();
    laws::rows_match_fields();
    laws::valid_fits();
    fits(i) && is_meant(word_with(i), i)
}
