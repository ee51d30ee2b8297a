//! From a word to the atomic instruction that it means.
ghost use Rattle.std.specs.Prelude.{◌≡◌, ℕ, ◌≤◌, IfSome, count_by};
ghost use Rattle.rv_decode.specs.Immediate.{field};
ghost use Rattle.rv_atomic.specs.Table.{matches, table};
ghost use Rattle.rv_atomic.specs.Means.{IsAtomic, atomic_of};
ghost use Rattle.rv_atomic.specs.Laws.{MeansNoOther};
ghost use Rattle.rv_atomic.specs.Inner.ByFields.{op_by};

use crate::atomic::{Atomic, AtomicOp};
use rv_decode::{bits, register};

/// The opcode AMO.
const OPCODE: u32 = 0x2F;

/// The funct3 of the instructions on words.
const WORD: u32 = 2;

/// The name of an atomic instruction on words, by its funct5 and its rs2.
#[tactic(auto, unfolding(crate::specs::Inner::ByFields::op_by))]
fn op_by_function(funct5: u32, rs2: u32) -> Option<AtomicOp>
    ensures { result ≡ op_by OPCODE WORD funct5 rs2 }
{
    match (funct5, rs2) {
        (0b00010, 0) => Some(AtomicOp::Lr),
        (0b00011, _) => Some(AtomicOp::Sc),
        (0b00001, _) => Some(AtomicOp::Swap),
        (0b00000, _) => Some(AtomicOp::Add),
        (0b00100, _) => Some(AtomicOp::Xor),
        (0b01100, _) => Some(AtomicOp::And),
        (0b01000, _) => Some(AtomicOp::Or),
        (0b10000, _) => Some(AtomicOp::Min),
        (0b10100, _) => Some(AtomicOp::Max),
        (0b11000, _) => Some(AtomicOp::Minu),
        (0b11100, _) => Some(AtomicOp::Maxu),
        _ => None,
    }
}

/// The name of the atomic instruction, by the word's opcode and then its other fields.
fn op_by_fields(word: u32) -> Option<AtomicOp>
    ensures { result ≡ op_by (field word 0 7) (field word 12 3) (field word 27 5) (field word 20 5) }
{
    if bits(word, 0, 7) == OPCODE && bits(word, 12, 3) == WORD {
        op_by_function(bits(word, 27, 5), bits(word, 20, 5))
    } else {
        None
    }
}

/// The atomic instruction that the word means: the one row of the table whose bits it has, with its
/// registers. `None` exactly where no row matches.
pub fn decode_atomic(word: u32) -> Option<Atomic>
    ensures value { result ≡ atomic_of word }
    ensures registers { IfSome result IsAtomic }
{
    let op = op_by_fields(word)?;
    Some(Atomic {
        op,
        rd: register(word, 7),
        rs1: register(word, 15),
        rs2: register(word, 20),
    })
}

/// No word matches two rows of the table.
pub fn atomic_rows_differ()
    ensures { (word : ℕ) → count_by (matches word) table ≤ 1 }
{}

/// A word of an atomic instruction means no other instruction, so that of `decode` and
/// `decode_atomic` either may come first.
pub fn atomic_words_mean_no_other()
    ensures { MeansNoOther }
{}
