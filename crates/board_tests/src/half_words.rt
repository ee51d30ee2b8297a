//! Half-words of the compressed instruction set, encoded by hand by tables 16.5 to 16.7 of the RISC-V Unprivileged
//! ISA, version 20191213.
use rv_decode::{Instr, Op};
use rvc_decode::expand;

/// A half-word and its instruction: the name, rd, rs1, rs2 and the immediate.
type Row = (u16, Op, u8, u8, u8, u32);

/// Quadrant 0: each row with its least and its greatest immediate, and with x8 and x15.
static QUADRANT_0: [Row; 9] = [
    (0x0040, Op::Addi, 8, 2, 0, 4), // c.addi4spn x8, x2, 4
    (0x0024, Op::Addi, 9, 2, 0, 8), // c.addi4spn x9, x2, 8
    (0x1FFC, Op::Addi, 15, 2, 0, 1020), // c.addi4spn x15, x2, 1020
    (0x4000, Op::Lw, 8, 8, 0, 0), // c.lw x8, 0(x8)
    (0x441C, Op::Lw, 15, 8, 0, 8), // c.lw x15, 8(x8)
    (0x5FFC, Op::Lw, 15, 15, 0, 124), // c.lw x15, 124(x15)
    (0xC000, Op::Sw, 0, 8, 8, 0), // c.sw x8, 0(x8)
    (0xC43C, Op::Sw, 0, 8, 15, 72), // c.sw x15, 72(x8)
    (0xDFFC, Op::Sw, 0, 15, 15, 124), // c.sw x15, 124(x15)
];

/// Quadrant 1, the same.
static QUADRANT_1: [Row; 35] = [
    (0x0001, Op::Addi, 0, 0, 0, 0), // c.nop
    (0x1401, Op::Addi, 8, 8, 0, 0xFFFF_FFE0), // c.addi x8, -32
    (0x07FD, Op::Addi, 15, 15, 0, 31), // c.addi x15, 31
    (0x0505, Op::Addi, 10, 10, 0, 1), // c.addi x10, 1
    (0x3001, Op::Jal, 1, 0, 0, 0xFFFF_F800), // c.jal -2048
    (0x2FFD, Op::Jal, 1, 0, 0, 2046), // c.jal 2046
    (0x5401, Op::Addi, 8, 0, 0, 0xFFFF_FFE0), // c.li x8, -32
    (0x47FD, Op::Addi, 15, 0, 0, 31), // c.li x15, 31
    (0x4501, Op::Addi, 10, 0, 0, 0), // c.li x10, 0
    (0x7101, Op::Addi, 2, 2, 0, 0xFFFF_FE00), // c.addi16sp x2, -512
    (0x7139, Op::Addi, 2, 2, 0, 0xFFFF_FFC0), // c.addi16sp x2, -64
    (0x617D, Op::Addi, 2, 2, 0, 496), // c.addi16sp x2, 496
    (0x7401, Op::Lui, 8, 0, 0, 0xFFFE_0000), // c.lui x8, 0xfffe0
    (0x6405, Op::Lui, 8, 0, 0, 0x1000), // c.lui x8, 1
    (0x67FD, Op::Lui, 15, 0, 0, 0x1_F000), // c.lui x15, 31
    (0x8001, Op::Srli, 8, 8, 0, 0), // c.srli x8, 0
    (0x83FD, Op::Srli, 15, 15, 0, 31), // c.srli x15, 31
    (0x8401, Op::Srai, 8, 8, 0, 0), // c.srai x8, 0
    (0x87FD, Op::Srai, 15, 15, 0, 31), // c.srai x15, 31
    (0x9801, Op::Andi, 8, 8, 0, 0xFFFF_FFE0), // c.andi x8, -32
    (0x8BFD, Op::Andi, 15, 15, 0, 31), // c.andi x15, 31
    (0x8C1D, Op::Sub, 8, 8, 15, 0), // c.sub x8, x15
    (0x8F81, Op::Sub, 15, 15, 8, 0), // c.sub x15, x8
    (0x8C3D, Op::Xor, 8, 8, 15, 0), // c.xor x8, x15
    (0x8FA1, Op::Xor, 15, 15, 8, 0), // c.xor x15, x8
    (0x8C5D, Op::Or, 8, 8, 15, 0), // c.or x8, x15
    (0x8FC1, Op::Or, 15, 15, 8, 0), // c.or x15, x8
    (0x8C7D, Op::And, 8, 8, 15, 0), // c.and x8, x15
    (0x8FE1, Op::And, 15, 15, 8, 0), // c.and x15, x8
    (0xB001, Op::Jal, 0, 0, 0, 0xFFFF_F800), // c.j -2048
    (0xAFFD, Op::Jal, 0, 0, 0, 2046), // c.j 2046
    (0xD001, Op::Beq, 0, 8, 0, 0xFFFF_FF00), // c.beqz x8, -256
    (0xCFFD, Op::Beq, 0, 15, 0, 254), // c.beqz x15, 254
    (0xF001, Op::Bne, 0, 8, 0, 0xFFFF_FF00), // c.bnez x8, -256
    (0xEFFD, Op::Bne, 0, 15, 0, 254), // c.bnez x15, 254
];

/// Quadrant 2, the same.
static QUADRANT_2: [Row; 18] = [
    (0x0402, Op::Slli, 8, 8, 0, 0), // c.slli x8, 0
    (0x07FE, Op::Slli, 15, 15, 0, 31), // c.slli x15, 31
    (0x4402, Op::Lw, 8, 2, 0, 0), // c.lwsp x8, 0(x2)
    (0x40B2, Op::Lw, 1, 2, 0, 12), // c.lwsp x1, 12(x2)
    (0x57FE, Op::Lw, 15, 2, 0, 252), // c.lwsp x15, 252(x2)
    (0x8082, Op::Jalr, 0, 1, 0, 0), // c.jr x1
    (0x8402, Op::Jalr, 0, 8, 0, 0), // c.jr x8
    (0x8782, Op::Jalr, 0, 15, 0, 0), // c.jr x15
    (0x843E, Op::Add, 8, 0, 15, 0), // c.mv x8, x15
    (0x87A2, Op::Add, 15, 0, 8, 0), // c.mv x15, x8
    (0x9002, Op::Ebreak, 0, 0, 0, 0), // c.ebreak
    (0x9402, Op::Jalr, 1, 8, 0, 0), // c.jalr x8
    (0x9782, Op::Jalr, 1, 15, 0, 0), // c.jalr x15
    (0x943E, Op::Add, 8, 8, 15, 0), // c.add x8, x15
    (0x97A2, Op::Add, 15, 15, 8, 0), // c.add x15, x8
    (0xC022, Op::Sw, 0, 2, 8, 0), // c.swsp x8, 0(x2)
    (0xC606, Op::Sw, 0, 2, 1, 12), // c.swsp x1, 12(x2)
    (0xDFBE, Op::Sw, 0, 2, 15, 252), // c.swsp x15, 252(x2)
];

/// Each bit of an offset by itself, and hints, which are instructions as their row says.
static BITS_AND_HINTS: [Row; 26] = [
    (0xA009, Op::Jal, 0, 0, 0, 2), // c.j 2
    (0xA011, Op::Jal, 0, 0, 0, 4), // c.j 4
    (0xA021, Op::Jal, 0, 0, 0, 8), // c.j 8
    (0xA801, Op::Jal, 0, 0, 0, 16), // c.j 16
    (0xA005, Op::Jal, 0, 0, 0, 32), // c.j 32
    (0xA081, Op::Jal, 0, 0, 0, 64), // c.j 64
    (0xA041, Op::Jal, 0, 0, 0, 128), // c.j 128
    (0xA201, Op::Jal, 0, 0, 0, 256), // c.j 256
    (0xA401, Op::Jal, 0, 0, 0, 512), // c.j 512
    (0xA101, Op::Jal, 0, 0, 0, 1024), // c.j 1024
    (0xC009, Op::Beq, 0, 8, 0, 2), // c.beqz x8, 2
    (0xC011, Op::Beq, 0, 8, 0, 4), // c.beqz x8, 4
    (0xC401, Op::Beq, 0, 8, 0, 8), // c.beqz x8, 8
    (0xC801, Op::Beq, 0, 8, 0, 16), // c.beqz x8, 16
    (0xC005, Op::Beq, 0, 8, 0, 32), // c.beqz x8, 32
    (0xC021, Op::Beq, 0, 8, 0, 64), // c.beqz x8, 64
    (0xC041, Op::Beq, 0, 8, 0, 128), // c.beqz x8, 128
    (0x007D, Op::Addi, 0, 0, 0, 31), // c.nop with the immediate 31
    (0x0401, Op::Addi, 8, 8, 0, 0), // c.addi x8, 0
    (0x4015, Op::Addi, 0, 0, 0, 5), // c.li x0, 5
    (0x6005, Op::Lui, 0, 0, 0, 0x1000), // c.lui x0, 1
    (0x8022, Op::Add, 0, 0, 8, 0), // c.mv x0, x8
    (0x9022, Op::Add, 0, 0, 8, 0), // c.add x0, x8
    (0x000E, Op::Slli, 0, 0, 0, 3), // c.slli x0, 3
    (0x0002, Op::Slli, 0, 0, 0, 0), // c.slli x0, 0
    (0xC002, Op::Sw, 0, 2, 0, 0), // c.swsp x0, 0(x2), which is no hint
];

fn stands_for((half, op, rd, rs1, rs2, imm): Row) -> bool {
    expand(half)
        == Some(Instr {
            op,
            rd,
            rs1,
            rs2,
            imm,
        })
}

#[test]
fn half_words_stand_for_their_instructions(rt: HostRuntime) {
    for row in &QUADRANT_0 {
        let half = row.0;
        assert!(rt; stands_for(*row), "{half:x}");
    }
    for row in &QUADRANT_1 {
        let half = row.0;
        assert!(rt; stands_for(*row), "{half:x}");
    }
    for row in &QUADRANT_2 {
        let half = row.0;
        assert!(rt; stands_for(*row), "{half:x}");
    }
    for row in &BITS_AND_HINTS {
        let half = row.0;
        assert!(rt; stands_for(*row), "{half:x}");
    }
}

/// Half-words at which a word begins.
static OTHERS: [u16; 6] = [
    0x0003, // the lower half of lb x0, 0(x0)
    0x0013, // of addi x0, x0, 0
    0x0073, // of ecall
    0x2503, // of lw x10, 0(x0)
    0x7FFF, // with all bits but the highest
    0xFFFF, // with all bits
];

/// The rows of the tables: mask, bits and name, and how many half-words they have. Where mask and bits fix n bits of
/// 16, there are 2^(16 - n) of them, less those that are reserved or belong to another row.
static COUNTS: [(u16, u16, Op, usize); 26] = [
    (0xE003, 0x0000, Op::Addi, 2040), // c.addi4spn: 2^11, less the immediate 0 with 8 registers
    (0xE003, 0x4000, Op::Lw, 2048), // c.lw: 2^11
    (0xE003, 0xC000, Op::Sw, 2048), // c.sw: 2^11
    (0xE003, 0x0001, Op::Addi, 2048), // c.addi and c.nop: 2^11
    (0xE003, 0x2001, Op::Jal, 2048), // c.jal: 2^11
    (0xE003, 0x4001, Op::Addi, 2048), // c.li: 2^11
    (0xEF83, 0x6101, Op::Addi, 63), // c.addi16sp: 2^6, less the immediate 0
    (0xE003, 0x6001, Op::Lui, 1953), // c.lui: 31 registers, each with 2^6 - 1 immediates
    (0xFC03, 0x8001, Op::Srli, 256), // c.srli: 8 registers, each with 32 amounts
    (0xFC03, 0x8401, Op::Srai, 256), // c.srai: the same
    (0xEC03, 0x8801, Op::Andi, 512), // c.andi: 8 registers, each with 2^6 immediates
    (0xFC63, 0x8C01, Op::Sub, 64), // c.sub: 8 times 8 registers
    (0xFC63, 0x8C21, Op::Xor, 64), // c.xor: the same
    (0xFC63, 0x8C41, Op::Or, 64), // c.or: the same
    (0xFC63, 0x8C61, Op::And, 64), // c.and: the same
    (0xE003, 0xA001, Op::Jal, 2048), // c.j: 2^11
    (0xE003, 0xC001, Op::Beq, 2048), // c.beqz: 2^11
    (0xE003, 0xE001, Op::Bne, 2048), // c.bnez: 2^11
    (0xF003, 0x0002, Op::Slli, 1024), // c.slli: 32 registers, each with 32 amounts
    (0xE003, 0x4002, Op::Lw, 1984), // c.lwsp: 31 registers, each with 2^6 offsets
    (0xF07F, 0x8002, Op::Jalr, 31), // c.jr: 31 registers
    (0xF003, 0x8002, Op::Add, 992), // c.mv: 32 registers times 31
    (0xFFFF, 0x9002, Op::Ebreak, 1), // c.ebreak
    (0xF07F, 0x9002, Op::Jalr, 31), // c.jalr: 31 registers
    (0xF003, 0x9002, Op::Add, 992), // c.add: 32 registers times 31
    (0xE003, 0xC002, Op::Sw, 2048), // c.swsp: 2^11
];

/// All of them: 6136 in quadrant 0, 15584 in quadrant 1, 7103 in quadrant 2.
const ALL: usize = 28823;

/// Whether the half-word has these bits, and stands for an instruction of this name.
fn is_of_row(half: u16, (mask, bits, op, _): (u16, u16, Op, usize)) -> bool {
    half & mask == bits && expand(half).is_some_and(|instr| instr.op == op)
}

fn has_its_count(row: (u16, u16, Op, usize)) -> bool {
    (0..=u16::MAX).filter(|half| is_of_row(*half, row)).count() == row.3
}

#[test]
fn each_row_has_its_count_of_half_words(rt: HostRuntime) {
    for row in &COUNTS {
        let (mask, bits, ..) = *row;
        assert!(rt; has_its_count(*row), "{mask:x} {bits:x}");
    }
    let all = (0..=u16::MAX)
        .filter(|half| expand(*half).is_some())
        .count();
    assert_eq!(rt; all, ALL);
    for half in &OTHERS {
        assert!(rt; expand(*half).is_none(), "{half:x}");
    }
}
