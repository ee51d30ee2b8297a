//! The names of instructions.
ghost use Rattle.std.specs.Prelude.{◌≡◌, map};
ghost use Rattle.rv_asm.specs.Mnemonics.{named_in, mnemonic_of};

use rv_decode::Op;

/// What stands first on a line: an instruction, or the directive `.word`.
#[derive(Clone, Copy)]
pub(crate) enum Mnemonic {
    Word,
    Instruction(Op),
}

/// Each instruction, with its name.
static NAMES: [(&str, Op); 57] = [
    ("lui", Op::Lui),
    ("auipc", Op::Auipc),
    ("jal", Op::Jal),
    ("jalr", Op::Jalr),
    ("beq", Op::Beq),
    ("bne", Op::Bne),
    ("blt", Op::Blt),
    ("bge", Op::Bge),
    ("bltu", Op::Bltu),
    ("bgeu", Op::Bgeu),
    ("lb", Op::Lb),
    ("lh", Op::Lh),
    ("lw", Op::Lw),
    ("lbu", Op::Lbu),
    ("lhu", Op::Lhu),
    ("sb", Op::Sb),
    ("sh", Op::Sh),
    ("sw", Op::Sw),
    ("addi", Op::Addi),
    ("slti", Op::Slti),
    ("sltiu", Op::Sltiu),
    ("xori", Op::Xori),
    ("ori", Op::Ori),
    ("andi", Op::Andi),
    ("slli", Op::Slli),
    ("srli", Op::Srli),
    ("srai", Op::Srai),
    ("add", Op::Add),
    ("sub", Op::Sub),
    ("sll", Op::Sll),
    ("slt", Op::Slt),
    ("sltu", Op::Sltu),
    ("xor", Op::Xor),
    ("srl", Op::Srl),
    ("sra", Op::Sra),
    ("or", Op::Or),
    ("and", Op::And),
    ("mul", Op::Mul),
    ("mulh", Op::Mulh),
    ("mulhsu", Op::Mulhsu),
    ("mulhu", Op::Mulhu),
    ("div", Op::Div),
    ("divu", Op::Divu),
    ("rem", Op::Rem),
    ("remu", Op::Remu),
    ("fence", Op::Fence),
    ("fence.i", Op::FenceI),
    ("ecall", Op::Ecall),
    ("ebreak", Op::Ebreak),
    ("csrrw", Op::Csrrw),
    ("csrrs", Op::Csrrs),
    ("csrrc", Op::Csrrc),
    ("csrrwi", Op::Csrrwi),
    ("csrrsi", Op::Csrrsi),
    ("csrrci", Op::Csrrci),
    ("mret", Op::Mret),
    ("wfi", Op::Wfi),
];

/// The first instruction of this name among these.
fn op_in(names: &[(&str, Op)], name: &str) -> Option<Op>
    ensures { result ≡ named_in (map (λ x. (x.0.now, x.1)) names.now) name.now }
{
    for (known, op) in names {
        if name == *known {
            return Some(*op);
        }
    }
    None
}

/// The instruction or directive of this name.
#[tactic(auto, unfolding(crate::specs::Mnemonics::op_named))]
pub(crate) fn mnemonic_of(name: &str) -> Option<Mnemonic>
    ensures { result ≡ mnemonic_of name.now }
{
    if name == ".word" {
        Some(Mnemonic::Word)
    } else {
        op_in(&NAMES, name).map(Mnemonic::Instruction)
    }
}
