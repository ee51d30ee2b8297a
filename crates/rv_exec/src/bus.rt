//! What a hart is wired to.
ghost use Rattle.std.specs.Prelude.{◌≡◌, ℕ, ◌%◌, ◌^◌, ◌<◌, Option, IfOk, OnOk, OnErr};
ghost use Rattle.rv_exec.specs.Access.{IsAccess, IsWidth};

use lab_num::NoMemory;

/// What a hart fetches its words from, loads from and stores to. Addresses and widths are in bytes.
pub trait Bus {
    /// What a fetch answers.
    ghost fetched: { Self → ℕ → Option ℕ };

    /// What a load that is not refused answers.
    ghost answer: { Self → ℕ → ℕ → ℕ };

    /// The bus after a load that is not refused.
    ghost loaded: { Self → ℕ → ℕ → Self };

    /// The bus after a store that is not refused.
    ghost stored: { Self → ℕ → ℕ → ℕ → Self };

    /// The word of an instruction at an address. `None` exactly where no memory holds its four
    /// bytes.
    fn fetch(&mut self, at: u32) -> Option<u32>
        ensures value { result ≡ fetched self.old at }
        ensures same { self.new ≡ self.old };

    /// The number of `width` bytes at an address. `NoMemory` is the only refusal.
    fn load(&mut self, at: u32, width: u8) -> Result<u32, NoMemory>
        requires { IsAccess at width }
        ensures answer { IfOk result (λ value. value ≡ answer self.old at width) }
        ensures fits { IfOk result (λ value. value < 256 ^ width) }
        ensures ok { OnOk result (self.new ≡ loaded self.old at width) }
        ensures err { OnErr result (self.new ≡ self.old) };

    /// Stores a number of `width` bytes at an address. `NoMemory` is the only refusal.
    fn store(&mut self, at: u32, width: u8, value: u32) -> Result<(), NoMemory>
        requires access { IsAccess at width }
        requires fits { value < 256 ^ width }
        ensures ok { OnOk result (self.new ≡ stored self.old at width value) }
        ensures err { OnErr result (self.new ≡ self.old) };
}

/// The lowest 1, 2 or 4 bytes of a value: what an access of this width has of it.
#[inline]
pub fn low_bytes(value: u32, width: u8) -> u32
    requires { IsWidth width }
    ensures value { result ≡ value % 256 ^ width }
    ensures fits { result < 256 ^ width }
{
    match width {
        1 => value % 0x100,
        2 => value % 0x1_0000,
        _ => value,
    }
}
