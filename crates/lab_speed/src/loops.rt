//! The loops that are measured, as texts for the assembler.

/// Each loop by its name, in the order of docs/SPEED.md: instructions of one kind that run for ever,
/// from address 0x80000000 on.
pub const LOOPS: [(&str, &str); 8] = [
    (
        "jumps",
        "auipc x1, 0\n\
            loop: jal x0, 4\njal x2, 4\njalr x0, 4(x2)\njal x0, a\n\
            a: jal x3, 4\njalr x4, 4(x3)\njal x0, 4\njal x5, b\n\
            b: jalr x0, 4(x5)\njal x0, 4\njal x6, 4\njalr x7, 4(x6)\n\
            jal x0, 4\njal x8, 4\njalr x0, 4(x8)\njal x0, loop\n",
    ),
    (
        "additions",
        "addi x1, x0, 17\naddi x2, x0, -3\n\
            loop: addi x3, x1, 5\nadd x4, x3, x2\nsub x5, x4, x1\nxor x6, x5, x4\n\
            or x7, x6, x3\nand x8, x7, x5\nslli x9, x8, 3\nsrli x10, x9, 2\nsrai x11, x2, 1\n\
            slt x12, x2, x1\nsltu x13, x2, x1\nxori x14, x9, 255\nori x15, x14, 16\n\
            andi x16, x15, 127\nslti x17, x16, 64\nsltiu x18, x16, 64\nsll x19, x16, x17\n\
            srl x20, x19, x17\nsra x21, x2, x17\nlui x22, 0x12345\nauipc x23, 1\n\
            add x1, x1, x17\njal x0, loop\n",
    ),
    (
        "products",
        "lui x1, 0x12345\naddi x2, x0, -77\naddi x3, x0, 1001\n\
            loop: mul x4, x1, x2\nmulh x5, x1, x2\nmulhu x6, x1, x2\nmulhsu x7, x2, x1\n\
            div x8, x1, x3\nrem x9, x1, x3\ndivu x10, x2, x3\nremu x11, x2, x3\n\
            mul x12, x4, x3\nmulh x13, x4, x3\nmulhu x14, x4, x3\nmulhsu x15, x4, x3\n\
            div x16, x4, x2\nrem x17, x4, x2\ndivu x18, x4, x3\nremu x19, x4, x3\n\
            jal x0, loop\n",
    ),
    (
        "memory",
        "auipc x1, 1\naddi x2, x0, -70\n\
            loop: sw x2, 0(x1)\nlw x3, 0(x1)\nsh x3, 4(x1)\nlh x4, 4(x1)\nsb x4, 6(x1)\n\
            lb x5, 6(x1)\nlhu x6, 4(x1)\nlbu x7, 6(x1)\nsw x5, 8(x1)\nlw x8, 8(x1)\n\
            sw x6, 12(x1)\nlw x9, 12(x1)\nsb x7, 17(x1)\nlbu x10, 17(x1)\nsh x8, 18(x1)\n\
            lh x11, 18(x1)\nlw x12, 16(x1)\nsw x12, 20(x1)\njal x0, loop\n",
    ),
    (
        "branches",
        "addi x1, x0, 5\naddi x2, x0, -5\n\
            loop: beq x1, x2, loop\nbne x1, x2, 4\nblt x1, x2, loop\nbge x1, x2, 4\n\
            bltu x1, x2, 4\nbgeu x1, x2, loop\nbeq x1, x1, 4\nbne x1, x1, loop\nblt x2, x1, 4\n\
            bge x2, x1, loop\nbltu x2, x1, loop\nbgeu x2, x1, 4\nbeq x0, x1, loop\n\
            bne x0, x1, 4\nblt x0, x2, loop\nbge x0, x2, 4\njal x0, loop\n",
    ),
    (
        "csr",
        "addi x1, x0, 85\n\
            loop: csrrw x2, 0x340, x1\ncsrrs x3, 0x340, x0\ncsrrc x4, 0x340, x1\n\
            csrrwi x5, 0x340, 31\ncsrrsi x6, 0x340, 4\ncsrrci x7, 0x340, 2\n\
            csrrs x8, 0xB00, x0\ncsrrs x9, 0xC02, x0\ncsrrw x10, 0x341, x3\ncsrrs x11, 0x341, x0\n\
            csrrsi x12, 0x300, 8\ncsrrci x13, 0x300, 8\ncsrrw x14, 0x305, x1\n\
            csrrs x15, 0x304, x1\ncsrrs x16, 0x344, x0\ncsrrs x17, 0xF14, x0\njal x0, loop\n",
    ),
    (
        "uart",
        "lui x1, 0x10000\naddi x2, x0, 85\n\
            loop: sb x2, 7(x1)\nlbu x3, 7(x1)\nlbu x4, 5(x1)\nsb x3, 3(x1)\nlbu x5, 3(x1)\n\
            sb x0, 1(x1)\nlbu x6, 1(x1)\nlbu x7, 2(x1)\nlbu x8, 5(x1)\nsb x2, 7(x1)\n\
            lbu x9, 0(x1)\nlbu x10, 4(x1)\njal x0, loop\n",
    ),
    // a sequence of numbers, and the UART asked for a byte in each turn
    (
        "polls",
        "lui x8, 0x10000\nlui x21, 0x196\naddi x21, x21, 0x60D\n\
            lui x22, 0x3C6EF\naddi x22, x22, 0x35F\nloop: mul x20, x20, x21\n\
            add x20, x20, x22\nlbu x10, 5(x8)\nandi x10, x10, 1\nbeq x10, x0, skip\n\
            lbu x11, 0(x8)\nskip: srli x12, x20, 24\nandi x13, x12, 15\n\
            bne x13, x0, loop\nsb x12, 7(x8)\njal x0, loop\n",
    ),
];

/// Loops of half-words, as an assembler for RV32IMC gives them.
pub const HALF_WORDS: [(&str, &str); 4] = [
    // c.j and c.jal, each to the next half-word, and c.j to the first
    (
        "jumps",
        ".word 0x2009A009\n.word 0xA009A009\n.word 0xA0092009\n.word 0x2009A009\n\
            .word 0xB7FDA009\n",
    ),
    // c.li x8, 17; c.li x9, -3; then in the loop c.addi x8, 5; c.add x10, x8; c.sub x10, x9; c.xor x11, x10;
    // c.or x11, x8; c.and x11, x10; c.slli x11, 3; c.srli x11, 2; c.srai x10, 1; c.andi x10, 15; c.mv x12, x11;
    // c.li x13, 7; c.add x12, x13; c.lui x14, 5; c.sub x14, x12; c.xor x14, x13; c.addi x14, -1; c.j
    (
        "additions",
        ".word 0x54F54445\n.word 0x95220415\n.word 0x8DA98D05\n.word 0x8DE98DC1\n\
            .word 0x8189058E\n.word 0x893D8505\n.word 0x469D862E\n.word 0x67159636\n\
            .word 0x8F358F11\n.word 0xBFF9177D\n",
    ),
    // auipc x8, 1; c.mv x2, x8; c.li x9, -7; then in the loop pairs of c.sw and c.lw by x8, and of c.swsp and
    // c.lwsp; c.j
    (
        "memory",
        ".word 0x00001417\n.word 0x54E58122\n.word 0x4008C004\n.word 0x404CC048\n\
            .word 0x4622C42E\n.word 0x4454C450\n.word 0x4742C836\n.word 0x485CC858\n\
            .word 0x0001B7E5\n",
    ),
    // c.li x8, 0; c.li x9, 1; then in the loop c.beqz and c.bnez of x8 and x9, half of them taken, each to the
    // next half-word; c.j
    (
        "branches",
        ".word 0x44854401\n.word 0xFC7DC009\n.word 0xE089DCF5\n.word 0xF87DC009\n\
            .word 0xE089D8F5\n.word 0x0001BFC5\n",
    ),
];

/// What stands before a loop on a wired board: the handler of the timer interrupt, which sets the
/// next one, and what turns it on.
pub const INTERRUPTS: &str = "jal x0, begin\naddi x28, x28, 100\nsw x28, 0(x29)\nmret\n\
    begin: lui x30, 0x80000\naddi x30, x30, 4\ncsrrw x0, 0x305, x30\nlui x29, 0x2004\n\
    addi x28, x0, 100\nsw x28, 0(x29)\nsw x0, 4(x29)\naddi x30, x0, 128\n\
    csrrw x0, 0x304, x30\ncsrrsi x0, 0x300, 8\n";
