//! What is fetched by half-words.
ghost use Rattle.std.specs.Prelude.{◌≡◌, ◌%◌, true};
ghost use Rattle.rv_hart.specs.declared.letters.Letters.{Letters};
ghost use Rattle.rv_exec.specs.Fetched.{IsPerformable};
ghost use Rattle.board.specs.Fetch.{begun_by, of_half};

use board_space::Space;
use dev_core::Device;
use rv_exec::Fetched;
use rvc_decode::expand;

/// What a half-word is: an instruction of two bytes, or none.
#[inline(always)]
pub fn of_half(half: u16) -> Fetched
    ensures value { result ≡ of_half half }
    ensures performable { (letters : Letters) → letters.c ≡ true → IsPerformable letters result }
{
    let word = u32::from(half);
    match expand(half) {
        Some(instr) => Fetched::Good {
            instr,
            size: 2,
            word,
        },
        None => Fetched::Bad(word),
    }
}

/// What the word is whose lower half is this one, which lies at an address.
#[inline(always)]
pub fn begun_by<D: Device>(space: &mut Space<D>, half: u16, at: u32) -> Fetched
    requires even { at % 2 ≡ 0 }
    requires long { half % 4 ≡ 3 }
    ensures value { result ≡ begun_by space.old at half }
    ensures performable { (letters : Letters) → IsPerformable letters result }
    ensures same { space.new ≡ space.old }
{
    match space.word_begun(half, at) {
        Some(word) => Fetched::of_word(word),
        None => Fetched::Fault(at.wrapping_add(2)),
    }
}
