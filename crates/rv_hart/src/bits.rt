//! Bits of a word.
ghost use Rattle.std.specs.Prelude.{◌≡◌, ◌<◌, ◌*◌, ◌/◌};
ghost use Rattle.rv_hart.specs.Trap.{is_set};

/// Whether a bit of a word is 1.
pub fn is_set(word: u32, bit: u32) -> bool
    requires { bit < 32 }
    ensures { result ≡ is_set word bit }
{
    (word >> bit) & 1 == 1
}

/// A word with its two lowest bits 0.
pub fn aligned(word: u32) -> u32
    ensures { result ≡ word / 4 * 4 }
{
    word & !3
}
