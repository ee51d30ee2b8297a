//! Words of an assembler and the instructions that they mean, which are encoded as the same words again.
use rv_asm::{encode, is_valid};
use rv_atomic::{Atomic, AtomicOp, decode_atomic, is_store};
use rv_decode::{Instr, Op, decode};

/// A word and its instruction: the name, rd, rs1, rs2 and the immediate.
static WORDS: [(u32, Op, u8, u8, u8, u32); 66] = [
    (0x100002B7, Op::Lui, 5, 0, 0, 0x10000000), // lui x5, 0x10000
    (0xFFFFFFB7, Op::Lui, 31, 0, 0, 0xFFFFF000), // lui x31, 0xfffff
    (0x80001517, Op::Auipc, 10, 0, 0, 0x80001000), // auipc x10, 0x80001
    (0x0000006F, Op::Jal, 0, 0, 0, 0), // jal x0, 0
    (0x001000EF, Op::Jal, 1, 0, 0, 2048), // jal x1, 2048
    (0x7FFFF0EF, Op::Jal, 1, 0, 0, 0xFFFFE), // jal x1, 1048574
    (0x80000FEF, Op::Jal, 31, 0, 0, 0xFFF00000), // jal x31, -1048576
    (0xFFC300E7, Op::Jalr, 1, 6, 0, 0xFFFFFFFC), // jalr x1, -4(x6)
    (0x00418463, Op::Beq, 0, 3, 4, 8), // beq x3, x4, 8
    (0xFE629FE3, Op::Bne, 0, 5, 6, 0xFFFFFFFE), // bne x5, x6, -2
    (0x0083C0E3, Op::Blt, 0, 7, 8, 2048), // blt x7, x8, 2048
    (0x80A4D063, Op::Bge, 0, 9, 10, 0xFFFFF000), // bge x9, x10, -4096
    (0x7EC5EFE3, Op::Bltu, 0, 11, 12, 4094), // bltu x11, x12, 4094
    (0x40E6F063, Op::Bgeu, 0, 13, 14, 1024), // bgeu x13, x14, 1024
    (0xFFF10083, Op::Lb, 1, 2, 0, 0xFFFFFFFF), // lb x1, -1(x2)
    (0x00221183, Op::Lh, 3, 4, 0, 2), // lh x3, 2(x4)
    (0x7FF32283, Op::Lw, 5, 6, 0, 2047), // lw x5, 2047(x6)
    (0x80044383, Op::Lbu, 7, 8, 0, 0xFFFFF800), // lbu x7, -2048(x8)
    (0x00055483, Op::Lhu, 9, 10, 0, 0), // lhu x9, 0(x10)
    (0x00628023, Op::Sb, 0, 5, 6, 0), // sb x6, 0(x5)
    (0xFFFF0FA3, Op::Sb, 0, 30, 31, 0xFFFFFFFF), // sb x31, -1(x30)
    (0x7EB61FA3, Op::Sh, 0, 12, 11, 2047), // sh x11, 2047(x12)
    (0x80D72023, Op::Sw, 0, 14, 13, 0xFFFFF800), // sw x13, -2048(x14)
    (0x04100313, Op::Addi, 6, 0, 0, 65), // addi x6, x0, 65
    (0xFFF28293, Op::Addi, 5, 5, 0, 0xFFFFFFFF), // addi x5, x5, -1
    (0x80012093, Op::Slti, 1, 2, 0, 0xFFFFF800), // slti x1, x2, -2048
    (0x7FF23193, Op::Sltiu, 3, 4, 0, 2047), // sltiu x3, x4, 2047
    (0xFFF34293, Op::Xori, 5, 6, 0, 0xFFFFFFFF), // xori x5, x6, -1
    (0x05546393, Op::Ori, 7, 8, 0, 85), // ori x7, x8, 85
    (0x0FF57493, Op::Andi, 9, 10, 0, 255), // andi x9, x10, 255
    (0x01F61593, Op::Slli, 11, 12, 0, 31), // slli x11, x12, 31
    (0x00175693, Op::Srli, 13, 14, 0, 1), // srli x13, x14, 1
    (0x41185793, Op::Srai, 15, 16, 0, 17), // srai x15, x16, 17
    (0x003100B3, Op::Add, 1, 2, 3, 0), // add x1, x2, x3
    (0x40628233, Op::Sub, 4, 5, 6, 0), // sub x4, x5, x6
    (0x009413B3, Op::Sll, 7, 8, 9, 0), // sll x7, x8, x9
    (0x00C5A533, Op::Slt, 10, 11, 12, 0), // slt x10, x11, x12
    (0x00F736B3, Op::Sltu, 13, 14, 15, 0), // sltu x13, x14, x15
    (0x0128C833, Op::Xor, 16, 17, 18, 0), // xor x16, x17, x18
    (0x015A59B3, Op::Srl, 19, 20, 21, 0), // srl x19, x20, x21
    (0x418BDB33, Op::Sra, 22, 23, 24, 0), // sra x22, x23, x24
    (0x01BD6CB3, Op::Or, 25, 26, 27, 0), // or x25, x26, x27
    (0x01EEFE33, Op::And, 28, 29, 30, 0), // and x28, x29, x30
    (0x0310000F, Op::Fence, 0, 0, 0, 0x31), // fence rw, w
    (0x0FF0000F, Op::Fence, 0, 0, 0, 0xFF), // fence iorw, iorw
    (0x8330000F, Op::Fence, 0, 0, 0, 0x833), // fence.tso
    (0x0FF5028F, Op::Fence, 5, 10, 0, 0xFF), // fence iorw, iorw with its reserved fields set
    (0x00000073, Op::Ecall, 0, 0, 0, 0), // ecall
    (0x00100073, Op::Ebreak, 0, 0, 0, 0), // ebreak
    (0x0000100F, Op::FenceI, 0, 0, 0, 0), // fence.i
    (0x305110F3, Op::Csrrw, 1, 2, 0, 0x305), // csrrw x1, 0x305, x2
    (0xC00021F3, Op::Csrrs, 3, 0, 0, 0xC00), // csrrs x3, 0xc00, x0
    (0x3042B273, Op::Csrrc, 4, 5, 0, 0x304), // csrrc x4, 0x304, x5
    (0x300FD373, Op::Csrrwi, 6, 31, 0, 0x300), // csrrwi x6, 0x300, 31
    (0xF14063F3, Op::Csrrsi, 7, 0, 0, 0xF14), // csrrsi x7, 0xf14, 0
    (0x30047073, Op::Csrrci, 0, 8, 0, 0x300), // csrrci x0, 0x300, 8
    (0x023100B3, Op::Mul, 1, 2, 3, 0), // mul x1, x2, x3
    (0x02629233, Op::Mulh, 4, 5, 6, 0), // mulh x4, x5, x6
    (0x029423B3, Op::Mulhsu, 7, 8, 9, 0), // mulhsu x7, x8, x9
    (0x02C5B533, Op::Mulhu, 10, 11, 12, 0), // mulhu x10, x11, x12
    (0x02F746B3, Op::Div, 13, 14, 15, 0), // div x13, x14, x15
    (0x0328D833, Op::Divu, 16, 17, 18, 0), // divu x16, x17, x18
    (0x035A69B3, Op::Rem, 19, 20, 21, 0), // rem x19, x20, x21
    (0x03DF7FB3, Op::Remu, 31, 30, 29, 0), // remu x31, x30, x29
    (0x30200073, Op::Mret, 0, 0, 0, 0), // mret
    (0x10500073, Op::Wfi, 0, 0, 0, 0), // wfi
];

/// An atomic one: the name, rd, rs1 and rs2.
static ATOMIC_WORDS: [(u32, AtomicOp, u8, u8, u8); 21] = [
    (0x1005_A52F, AtomicOp::Lr, 10, 11, 0), // lr.w x10, (x11)
    (0x1405_A52F, AtomicOp::Lr, 10, 11, 0), // lr.w.aq x10, (x11)
    (0x120F_2FAF, AtomicOp::Lr, 31, 30, 0), // lr.w.rl x31, (x30)
    (0x1600_202F, AtomicOp::Lr, 0, 0, 0), // lr.w.aqrl x0, (x0)
    (0x18C5_A52F, AtomicOp::Sc, 10, 11, 12), // sc.w x10, x12, (x11)
    (0x1C21_A0AF, AtomicOp::Sc, 1, 3, 2), // sc.w.aq x1, x2, (x3)
    (0x1AC5_A52F, AtomicOp::Sc, 10, 11, 12), // sc.w.rl x10, x12, (x11)
    (0x1FEE_AFAF, AtomicOp::Sc, 31, 29, 30), // sc.w.aqrl x31, x30, (x29)
    (0x0821_A0AF, AtomicOp::Swap, 1, 3, 2), // amoswap.w x1, x2, (x3)
    (0x0E52_A2AF, AtomicOp::Swap, 5, 5, 5), // amoswap.w.aqrl x5, x5, (x5)
    (0x0062_A02F, AtomicOp::Add, 0, 5, 6), // amoadd.w x0, x6, (x5)
    (0x0421_A0AF, AtomicOp::Add, 1, 3, 2), // amoadd.w.aq x1, x2, (x3)
    (0x2053_222F, AtomicOp::Xor, 4, 6, 5), // amoxor.w x4, x5, (x6)
    (0x6084_A3AF, AtomicOp::And, 7, 9, 8), // amoand.w x7, x8, (x9)
    (0x6284_A3AF, AtomicOp::And, 7, 9, 8), // amoand.w.rl x7, x8, (x9)
    (0x40B6_252F, AtomicOp::Or, 10, 12, 11), // amoor.w x10, x11, (x12)
    (0x80E7_A6AF, AtomicOp::Min, 13, 15, 14), // amomin.w x13, x14, (x15)
    (0xA119_282F, AtomicOp::Max, 16, 18, 17), // amomax.w x16, x17, (x18)
    (0xC14A_A9AF, AtomicOp::Minu, 19, 21, 20), // amominu.w x19, x20, (x21)
    (0xC7EE_AFAF, AtomicOp::Minu, 31, 29, 30), // amominu.w.aqrl x31, x30, (x29)
    (0xE17C_2B2F, AtomicOp::Maxu, 22, 24, 23), // amomaxu.w x22, x23, (x24)
];

fn means((word, op, rd, rs1, rs2, imm): (u32, Op, u8, u8, u8, u32)) -> bool {
    let instr = Instr {
        op,
        rd,
        rs1,
        rs2,
        imm,
    };
    decode(word) == Some(instr) && is_valid(&instr) && encode(&instr) == word
}

fn means_atomic((word, op, rd, rs1, rs2): (u32, AtomicOp, u8, u8, u8)) -> bool {
    decode_atomic(word) == Some(Atomic { op, rd, rs1, rs2 })
}

/// Words, and whether each has the opcode of stores.
static STORES: [(u32, bool); 6] = [
    (0x0020_8023, true), // sb x2, 0(x1)
    (0x0020_9023, true), // sh x2, 0(x1)
    (0x0020_A023, true), // sw x2, 0(x1)
    (0x0000_A183, false), // lw x3, 0(x1)
    (0x1820_A1AF, false), // sc.w x3, x2, (x1)
    (0x0020_A1AF, false), // amoadd.w x3, x2, (x1)
];

#[test]
fn words_mean_their_instructions(rt: HostRuntime) {
    for row in &WORDS {
        let word = row.0;
        assert!(rt; means(*row), "{word:x}");
    }
    for row in &ATOMIC_WORDS {
        let word = row.0;
        assert!(rt; means_atomic(*row), "{word:x}");
    }
    for &(word, wanted) in &STORES {
        assert!(rt; is_store(word) == wanted, "{word:x}");
    }
}
