//! A bus for the tests: a few words of memory.
ghost use Rattle.std.specs.Prelude.{
  bit_and,
  bit_or,
  if◌then◌else◌,
  nat_lt,
  slice_index,
  slice_set,
  None,
  Some,
  ◌%◌,
  ◌*◌,
  ◌-◌,
  ◌/◌,
  ◌≡◌,
  ◌^◌,
};
ghost use Rattle.std.specs.Int.{w32, bit_not};
ghost use Rattle.rv_exec.specs.Access.{IsWidth};

use lab_num::NoMemory;
use rv_exec::Bus;

/// The highest number of this many bytes.
fn highest(width: u8) -> u32
    requires { IsWidth width }
    ensures { result ≡ 256 ^ width - 1 }
{
    match width {
        1 => 0xFF,
        2 => 0xFFFF,
        _ => 0xFFFF_FFFF,
    }
}

/// The lowest bytes of a word.
fn lowest(word: u32, width: u8) -> u32
    requires { IsWidth width }
    ensures { result ≡ word % 256 ^ width }
{
    match width {
        1 => word & 0xFF,
        2 => word & 0xFFFF,
        _ => word,
    }
}

/// Sixteen words of memory from address 0 on, which answer at other addresses too, but hold no
/// instructions there.
#[derive(Clone, Copy, PartialEq, Eq, Debug)]
pub struct Memory {
    pub words: [u32; 16],
    /// Loads and stores are refused.
    pub is_full: bool,
}

impl Bus for Memory {
    ghost fetched = { λ m at. if nat_lt at 64 then Some (slice_index m.words (at / 4)) else None };

    ghost answer = { λ m at width.
        slice_index m.words (at / 4 % 16) / 2 ^ (8 * (at % 4)) % 256 ^ width };

    ghost loaded = { λ m at width. m };

    ghost stored = { λ m at width value.
        let place = at / 4 % 16 in
        let low = 2 ^ (8 * (at % 4)) in
        let mask = (256 ^ width - 1) * low % 2 ^ 32 in
        let kept = bit_and (slice_index m.words place) (bit_not w32 mask) in
        record m { words = slice_set m.words place (bit_or kept (value * low % 2 ^ 32)) } };

    fn fetch(&mut self, at: u32) -> Option<u32> {
        if at < 64 {
            Some(self.words[(at / 4) as usize])
        } else {
            None
        }
    }

    fn load(&mut self, at: u32, width: u8) -> Result<u32, NoMemory> {
        if self.is_full {
            return Err(NoMemory);
        }
        let word = self.words[(at / 4 % 16) as usize] >> (8 * (at % 4));
        Ok(lowest(word, width))
    }

    fn store(&mut self, at: u32, width: u8, value: u32) -> Result<(), NoMemory> {
        if self.is_full {
            return Err(NoMemory);
        }
        let shift = 8 * (at % 4);
        let word = &mut self.words[(at / 4 % 16) as usize];
        *word = *word & !(highest(width) << shift) | value << shift;
        Ok(())
    }
}
