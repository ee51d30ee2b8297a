//! What an atomic memory operation stores (RISC-V Unprivileged ISA 20191213, section 8.4).
ghost use Rattle.std.specs.Prelude.{◌≡◌};
ghost use Rattle.rv_atomic.specs.Combined.{combined, greatest, greatest_unsigned, least, least_unsigned};

use crate::atomic::AtomicOp;

/// The lesser of two words as signed numbers.
fn least(a: u32, b: u32) -> u32
    ensures { result ≡ least a b }
{
    if a.cast_signed() < b.cast_signed() {
        a
    } else {
        b
    }
}

/// The greater of two words as signed numbers.
fn greatest(a: u32, b: u32) -> u32
    ensures { result ≡ greatest a b }
{
    if a.cast_signed() < b.cast_signed() {
        b
    } else {
        a
    }
}

/// The lesser of two words as unsigned numbers.
fn least_unsigned(a: u32, b: u32) -> u32
    ensures { result ≡ least_unsigned a b }
{
    if a < b { a } else { b }
}

/// The greater of two words as unsigned numbers.
fn greatest_unsigned(a: u32, b: u32) -> u32
    ensures { result ≡ greatest_unsigned a b }
{
    if a < b { b } else { a }
}

/// What the word in memory becomes by an instruction that stores, whose `rs2` holds the operand.
/// `Lr` leaves the word as it is.
pub fn combined(op: AtomicOp, word: u32, operand: u32) -> u32
    ensures { result ≡ combined op word operand }
{
    match op {
        AtomicOp::Lr => word,
        AtomicOp::Sc | AtomicOp::Swap => operand,
        AtomicOp::Add => word.wrapping_add(operand),
        AtomicOp::Xor => word ^ operand,
        AtomicOp::And => word & operand,
        AtomicOp::Or => word | operand,
        AtomicOp::Min => least(word, operand),
        AtomicOp::Max => greatest(word, operand),
        AtomicOp::Minu => least_unsigned(word, operand),
        AtomicOp::Maxu => greatest_unsigned(word, operand),
    }
}
