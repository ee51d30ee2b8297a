//! What the fetch of a slot has answered.
ghost use Rattle.std.specs.Prelude.{◌≡◌};
ghost use Rattle.rv_hart.specs.declared.letters.Letters.{Letters};
ghost use Rattle.rv_exec.specs.Effect.{found_at, of_word};
ghost use Rattle.rv_exec.specs.Fetched.{IsPerformable};

use crate::bus::Bus;
use rv_decode::{Instr, decode};

/// What a slot finds at the hart's pc.
#[derive(Clone, Copy)]
pub enum Fetched {
    /// No memory holds what is needed at this address.
    Fault(u32),
    /// This word, or half-word, means no instruction.
    Bad(u32),
    /// An instruction of so many bytes, with its word or half-word.
    Good { instr: Instr, size: u8, word: u32 },
}

impl Fetched {
    /// What a word is: an instruction of four bytes, or none.
    #[inline(always)]
    pub fn of_word(word: u32) -> Fetched
        ensures value { result ≡ of_word word }
        ensures performable { (letters : Letters) → IsPerformable letters result }
    {
        match decode(word) {
            Some(instr) => Fetched::Good {
                instr,
                size: 4,
                word,
            },
            None => Fetched::Bad(word),
        }
    }
}

/// What the word at an address is.
#[inline(always)]
pub fn find<B: Bus>(bus: &mut B, at: u32) -> Fetched
    ensures value { result ≡ found_at at (B.fetched bus.old at) }
    ensures performable { (letters : Letters) → IsPerformable letters result }
    ensures same { bus.new ≡ bus.old }
{
    match bus.fetch(at) {
        Some(word) => Fetched::of_word(word),
        None => Fetched::Fault(at),
    }
}
