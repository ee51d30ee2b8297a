//! Texts with the words that another assembler gives, and faulty lines with their causes.
ghost use Rattle.std.specs.Prelude.{◌≤◌, length};

use rv_asm::{AsmCause, AsmFault, assemble};
use std::alloc::Global;
use std::test::Fail;

/// The number of the first line with a fault, and the cause.
fn fault_of(alloc: Global, text: &str) -> Option<(u32, AsmCause)>
    requires { length text.now ≤ 100 }
{
    match assemble(alloc, text) {
        Err(AsmFault::Line { n, cause }) => Some((n, cause)),
        _ => None,
    }
}

/// A text, the first line with a fault, and the cause.
static FAULTS: [(&str, u32, AsmCause); 44] = [
    ("addi x5, x5, 2048", 1, AsmCause::Range),
    ("addx x1", 1, AsmCause::Name),
    ("addi x5, x5, -2049", 1, AsmCause::Range),
    ("addi x5, x5, 99999999999999999999999", 1, AsmCause::Range),
    ("slli x1, x1, 32", 1, AsmCause::Range),
    ("slli x1, x1, -1", 1, AsmCause::Range),
    ("lui x1, 0x100000", 1, AsmCause::Range),
    ("lui x1, -1", 1, AsmCause::Range),
    ("lw x1, 2048(x2)", 1, AsmCause::Range),
    ("csrrw x1, 4096, x2", 1, AsmCause::Range),
    ("csrrwi x1, 0x300, 32", 1, AsmCause::Range),
    ("beq x0, x0, 4096", 1, AsmCause::Range),
    ("beq x0, x0, 3", 1, AsmCause::Range),
    ("jal x0, -1", 1, AsmCause::Range),
    ("jal x0, 1048576", 1, AsmCause::Range),
    (".word 0x100000000", 1, AsmCause::Range),
    (".word -2147483649", 1, AsmCause::Range),
    ("add x1, x2", 1, AsmCause::Form),
    ("add x1, x2, x3, x4", 1, AsmCause::Form),
    ("add x1, x2, x32", 1, AsmCause::Form),
    ("add x1, x2, x03", 1, AsmCause::Form),
    ("addi x1, x2, 0X10", 1, AsmCause::Form),
    ("addi x1, x2, +1", 1, AsmCause::Form),
    ("addi x1, x2, 0x", 1, AsmCause::Form),
    ("lw x1, x2", 1, AsmCause::Form),
    ("lw x1, 4(x2) 5", 1, AsmCause::Form),
    ("ecall 1", 1, AsmCause::Form),
    ("beq x0, x0, 1a", 1, AsmCause::Form),
    ("a:", 1, AsmCause::Form),
    ("nop: # alone", 1, AsmCause::Form),
    ("1a: ecall", 1, AsmCause::Form),
    (": ecall", 1, AsmCause::Form),
    ("a-b: ecall", 1, AsmCause::Form),
    ("ecall\r\n", 1, AsmCause::Name),
    ("ADD x1, x2, x3", 1, AsmCause::Name),
    ("add\u{A0}x1, x2, x3", 1, AsmCause::Name),
    ("jal x0, nowhere", 1, AsmCause::Label),
    ("a: ecall\na: ecall", 2, AsmCause::Label),
    // two faults on one line
    ("1a: nop", 1, AsmCause::Name),
    ("1a: beq x0, x0, nowhere", 1, AsmCause::Form),
    ("a: ecall\na: add x1", 2, AsmCause::Form),
    ("a: ecall\na: addi x1, x1, 2048", 2, AsmCause::Label),
    // two lines with a fault
    ("\necall\naddi x5, x5, 2048\nnop", 3, AsmCause::Range),
    ("jal x0, a\na: ecall\na: nop", 3, AsmCause::Name),
];

fn has_fault(alloc: Global, (text, n, cause): (&str, u32, AsmCause)) -> bool {
    text.len() <= 100 && fault_of(alloc, text) == Some((n, cause))
}

#[test]
fn a_text_has_its_words_or_its_first_fault(rt: HostRuntime) -> Result<(), Fail> {
    let text = "loop: addi x5, x5, -1\n\
         bne x5, x0, loop\n\
         # a program\n\
         \n\
           jal x0, end\n\
         back: beq x0, x0, back\n\
         \t# between\n\
         end: jal x0, back\n\
         lui x5, 0x10000\n\
         lui x31, 0xFFFFF\n\
         auipc x10, 524289\n\
         jal x1, 2048\n\
         jal x31, -1048576\n\
         jal x1, 1048574\n\
         jalr x1, -4(x6)\n\
         beq x3, x4, 8\n\
         bge x9, x10, -4096\n\
         bltu x11, x12, 4094\n\
         lb x1, -1(x2)\n\
         lw x5, 2047(x6)\n\
         lhu x9, 0(x10)\n\
         sb x31, -0x1(x30)\n\
         sw x13, -2048(x14)\n\
         addi x6, x0, 65\n\
         andi x9, x10, 0x0fF\n\
         slti x1, x2, -2048\n\
         slli x11, x12, 31\n\
         srai x15, x16, 0017\n\
         sub x4, x5, x6\n\
         and x28, x29, x30\n\
         remu x31, x30, x29\n\
         fence\n\
         fence.i\n\
         ecall\n\
         ebreak\n\
         csrrw x1, 0x305, x2\n\
         csrrs x3, 3072, x0\n\
         csrrwi x6, 0x300, 31\n\
         csrrci x0, 0x300, 8\n\
         mret\n\
         wfi\n\
         .word 0xFFFFFFFF\n\
         .word -1\n\
         .word 65\n\
          \tadd\tx1 ,x2,  x3 \t# with blanks\n\
         a_1 : mul x1, x2, x3 # : no label";
    let meant = [
        0xFFF28293, // loop: addi x5, x5, -1
        0xFE029EE3, // bne x5, x0, loop
        0x0080006F, // jal x0, end
        0x00000063, // back: beq x0, x0, back
        0xFFDFF06F, // end: jal x0, back
        0x100002B7, // lui x5, 0x10000
        0xFFFFFFB7, // lui x31, 0xFFFFF
        0x80001517, // auipc x10, 524289
        0x001000EF, // jal x1, 2048
        0x80000FEF, // jal x31, -1048576
        0x7FFFF0EF, // jal x1, 1048574
        0xFFC300E7, // jalr x1, -4(x6)
        0x00418463, // beq x3, x4, 8
        0x80A4D063, // bge x9, x10, -4096
        0x7EC5EFE3, // bltu x11, x12, 4094
        0xFFF10083, // lb x1, -1(x2)
        0x7FF32283, // lw x5, 2047(x6)
        0x00055483, // lhu x9, 0(x10)
        0xFFFF0FA3, // sb x31, -0x1(x30)
        0x80D72023, // sw x13, -2048(x14)
        0x04100313, // addi x6, x0, 65
        0x0FF57493, // andi x9, x10, 0x0fF
        0x80012093, // slti x1, x2, -2048
        0x01F61593, // slli x11, x12, 31
        0x41185793, // srai x15, x16, 0017
        0x40628233, // sub x4, x5, x6
        0x01EEFE33, // and x28, x29, x30
        0x03DF7FB3, // remu x31, x30, x29
        0x0000000F, // fence
        0x0000100F, // fence.i
        0x00000073, // ecall
        0x00100073, // ebreak
        0x305110F3, // csrrw x1, 0x305, x2
        0xC00021F3, // csrrs x3, 3072, x0
        0x300FD373, // csrrwi x6, 0x300, 31
        0x30047073, // csrrci x0, 0x300, 8
        0x30200073, // mret
        0x10500073, // wfi
        0xFFFFFFFF, // .word 0xFFFFFFFF
        0xFFFFFFFF, // .word -1
        65, // .word 65
        0x003100B3, // add x1 ,x2,  x3  # with blanks
        0x023100B3, // a_1 : mul x1, x2, x3 # : no label
    ];
    let words = assemble(rt.alloc(), text)?;
    assert_eq!(rt; words.as_slice(), meant.as_slice());
    for row in &FAULTS {
        let text = row.0;
        assert!(rt; has_fault(rt.alloc(), *row), "{text}");
    }
    Ok(())
}
