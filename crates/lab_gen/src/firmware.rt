//! The program of a board.
ghost use Rattle.std.specs.Prelude.{◌≡◌, ◌<◌, ◌≤◌, ◌^◌, Some, None, IfOk, find, length};
ghost use Rattle.std.specs.List.{flat_map};
ghost use Rattle.rv_asm.specs.Program.{given, is_fault, lines_of};
ghost use Rattle.lab_gen.specs.Firmware as spec;

use lab_num::NoMemory;
use rv_asm::{AsmFault, assemble};
use std::alloc::Global;

/// The lines before those that give x20 its start: the UART's address, and its queues turned on.
const HEAD: &str = "lui x8, 0x10000\naddi x9, x0, 1\nsb x9, 2(x8)\n";

/// The word of `lui x20, 0`.
const LUI_X20: u32 = 0x0000_0A37;

/// The word of `addi x20, x20, 0`.
const ADDI_X20: u32 = 0x000A_0A13;

/// The lines after them: the constants, and a loop that never ends. Each turn makes the next number of
/// a sequence, takes a byte into a sum if one came, and sends a byte for one number in sixteen.
const TAIL: &str = "lui x21, 0x196\naddi x21, x21, 0x60D\nlui x22, 0x3C6EF\n\
    addi x22, x22, 0x35F\naddi x23, x0, 31\nloop: mul x20, x20, x21\nadd x20, x20, x22\n\
    lbu x10, 5(x8)\nandi x10, x10, 1\nbeq x10, x0, skip\nlbu x11, 0(x8)\nmul x18, x18, x23\n\
    add x18, x18, x11\nskip: srli x12, x20, 24\nandi x13, x12, 15\nbne x13, x0, loop\n\
    sb x12, 0(x8)\njal x0, loop\n";

/// The number that register x20 of a board starts with.
fn start_of(seed: u64, board: u8) -> u32
    ensures { result ≡ spec.start_of seed board }
{
    let low = (seed % 0x1_0000_0000) as u32;
    low ^ u32::from(board).wrapping_mul(2_654_435_769)
}

/// The word of the `lui` that gives x20 its upper 20 bits, so that `addi` can add the rest as a signed
/// number.
#[tactic(auto, unfolding(rv_asm::specs::Encoded::encoded, rv_decode::specs::Table::row_of))]
fn upper_word(start: u32) -> u32
    ensures { spec.upper_word start ≡ Some result }
{
    let upper = ((u64::from(start) + 0x800) / 0x1000 % 0x10_0000) as u32;
    LUI_X20 + upper * 0x1000
}

/// The word of the `addi` that gives x20 the rest.
#[tactic(auto, unfolding(rv_asm::specs::Encoded::encoded, rv_decode::specs::Table::row_of))]
fn rest_word(start: u32) -> u32
    ensures { spec.rest_word start ≡ Some result }
{
    ADDI_X20 + start % 0x1000 * 0x10_0000
}

/// The words of a text without a fault.
#[tactic(auto, using(crate::proofs::Texts::assembled))]
fn assembled(alloc: Global, text: &str) -> Result<Vec<u32>, NoMemory>
    requires short { length text.now ≤ 2 ^ 24 }
    requires no_fault { find (λ line. is_fault line.1) (given (lines_of text.now)) ≡ None }
    ensures { IfOk result (λ words. words.items ≡ spec.words_of text.now) }
{
    match assemble(alloc, text) {
        Ok(words) => Ok(words),
        Err(AsmFault::Memory) => Err(NoMemory),
        Err(AsmFault::Line { .. }) => unreachable!(),
    }
}

/// The words of the lines before those that give x20 its start.
fn head(alloc: Global) -> Result<Vec<u32>, NoMemory>
    ensures { IfOk result (λ words. words.items ≡ spec.words_of spec.head) }
{
    assembled(alloc, HEAD)
}

/// The words of the lines after them.
fn tail(alloc: Global) -> Result<Vec<u32>, NoMemory>
    ensures { IfOk result (λ words. words.items ≡ spec.words_of spec.tail) }
{
    assembled(alloc, TAIL)
}

/// The words of a program.
fn words(alloc: Global, start: u32) -> Result<Vec<u32>, NoMemory>
    ensures { IfOk result (λ words. words.items ≡ spec.words start) }
{
    let mut words = head(alloc)?;
    words.push(upper_word(start))?;
    words.push(rest_word(start))?;
    let tail = tail(alloc)?;
    words.extend_from_slice(&tail)?;
    Ok(words)
}

/// Words as bytes, the lowest byte of each first.
fn bytes_of(alloc: Global, words: &[u32]) -> Result<Vec<u8>, NoMemory>
    ensures { IfOk result (λ bytes. bytes.items ≡ flat_map spec.word_bytes words.now) }
{
    let mut bytes = Vec::new(alloc);
    for word in words {
        bytes.extend_from_slice(&word.to_le_bytes())?;
    }
    Ok(bytes)
}

/// The program of a board, as the bytes of its words.
#[tactic(auto, unfolding(crate::specs::Firmware::program))]
pub(crate) fn program(alloc: Global, seed: u64, board: u8) -> Result<Vec<u8>, NoMemory>
    ensures { IfOk result (λ bytes. bytes.items ≡ spec.program seed board) }
{
    let words = words(alloc, start_of(seed, board))?;
    bytes_of(alloc, &words)
}
