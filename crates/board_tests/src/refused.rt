//! Accesses that find no memory, and numbers of CSRs that no instruction can have: what is refused changes nothing.
ghost use Rattle.rv_hart.specs.declared.letters.Letters.{Letters};
ghost use Rattle.rv_atomic.specs.SharedEffect.{IsSharable};

use crate::memory::Memory;
use lab_num::NoMemory;
use rv_atomic::{Shared, Watch, decode_atomic, step_shared};
use rv_exec::{Fetched, step};
use rv_hart::{CsrFault, Hart, Lines};

const LINES: Lines = Lines {
    mip: 0,
    mtime: 0x1122_3344_5566_7788,
};

/// A hart at 0x20 with 4 in x1, 9 in x2 and 0x55 in x3.
fn hart() -> Hart {
    let mut hart = Hart::new();
    hart.set_register(1, 4);
    hart.set_register(2, 9);
    hart.set_register(3, 0x55);
    hart.set_pc(0x20);
    hart
}

/// A memory that refuses each load and store, with this word at 0x20.
fn full_memory(word: u32) -> Memory {
    let mut words = [0x11; 16];
    words[8] = word;
    Memory {
        words,
        is_full: true,
    }
}

/// What a word is on a hart with atomic instructions.
fn meaning(word: u32) -> Shared
    ensures { (letters : Letters) → IsSharable letters result }
{
    match decode_atomic(word) {
        Some(atomic) => Shared::Atomic(atomic),
        None => Shared::Plain(Fetched::of_word(word)),
    }
}

/// A word, and how its step ends.
static REFUSED: [(u32, Result<(), NoMemory>); 4] = [
    // lw x3, 0(x1)
    (0x0000_A183, Err(NoMemory)),
    // sw x2, 0(x1)
    (0x0020_A023, Err(NoMemory)),
    // lw x3, 2(x1), which is an exception
    (0x0020_A183, Ok(())),
    // addi x3, x1, 0
    (0x0000_8193, Ok(())),
];

/// Whether the word ends so, and then has changed nothing.
fn is_refused((word, answer): (u32, Result<(), NoMemory>)) -> bool {
    let mut hart = hart();
    let before = hart;
    let mut memory = full_memory(word);
    let full = memory;
    step(&mut hart, &mut memory, LINES) == answer
        && memory == full
        && (hart == before) == answer.is_err()
}

/// Does a word on a hart of the watch. `None` where there is no such hart.
fn do_word(
    hart: &mut Hart,
    number: u8,
    watch: &mut Watch,
    memory: &mut Memory,
    word: u32,
) -> Option<Result<(), NoMemory>> {
    if number < watch.harts() {
        let what = meaning(word);
        Some(step_shared(hart, number, watch, what, memory, LINES))
    } else {
        None
    }
}

/// The word that a hart has reserved.
fn reserved(watch: &Watch, number: u8) -> Option<u32> {
    if number < watch.harts() {
        watch.reserved(number)
    } else {
        None
    }
}

/// Sets the reservation of a hart of the watch.
fn put(watch: &mut Watch, number: u8, word: Option<u32>) {
    if number < watch.harts() {
        watch.put(number, word);
    }
}

/// A word, what the hart has reserved, and how it ends.
static REFUSED_SHARED: [(u32, Option<u32>, Result<(), NoMemory>); 6] = [
    // amoadd.w x3, x2, (x1)
    (0x0020_A1AF, Some(4), Err(NoMemory)),
    // sc.w x3, x2, (x1)
    (0x1820_A1AF, Some(4), Err(NoMemory)),
    // the same, which stores nothing
    (0x1820_A1AF, Some(8), Ok(())),
    // lr.w x3, (x1)
    (0x1000_A1AF, None, Ok(())),
    // sw x2, 0(x1)
    (0x0020_A023, Some(4), Err(NoMemory)),
    // add x3, x1, x2
    (0x0020_81B3, Some(4), Ok(())),
];

/// Whether the word ends so on the first of two harts, the other of which has reserved its word, and then has
/// changed nothing.
fn is_refused_shared((word, before, answer): (u32, Option<u32>, Result<(), NoMemory>)) -> bool {
    let mut hart = hart();
    let old = hart;
    let mut memory = full_memory(word);
    let full = memory;
    let mut watch = Watch::new(2);
    put(&mut watch, 0, before);
    put(&mut watch, 1, Some(4));
    do_word(&mut hart, 0, &mut watch, &mut memory, word) == Some(answer)
        && memory == full
        && reserved(&watch, 1) == Some(4)
        && (answer.is_ok() || hart == old && reserved(&watch, 0) == before)
}

/// Whether a CSR of this number is neither read nor written.
fn is_no_csr(number: u32) -> bool {
    let mut hart = hart();
    let before = hart;
    hart.csr_read(number, LINES) == Err(CsrFault::Illegal)
        && hart.csr_write(number, 0).is_err()
        && hart == before
}

#[test]
fn what_is_refused_changes_nothing(rt: HostRuntime) {
    for row in &REFUSED {
        assert!(rt; is_refused(*row), "{row:?}");
    }
    for row in &REFUSED_SHARED {
        assert!(rt; is_refused_shared(*row), "{row:?}");
    }
    for number in &[0x1300, 0xFFFF_FFFF] {
        assert!(rt; is_no_csr(*number), "{number:x}");
    }
}
