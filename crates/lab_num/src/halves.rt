//! The halves of a register of 64 bits.
ghost use Rattle.std.specs.Prelude.{◌≡◌};
ghost use Rattle.lab_num.specs.Halves as halves;

/// The lower half.
pub fn low_half(value: u64) -> u32
    ensures { result ≡ halves.low value }
{
    (value & 0xFFFF_FFFF) as u32
}

/// The upper half.
pub fn high_half(value: u64) -> u32
    ensures { result ≡ halves.high value }
{
    (value >> 32) as u32
}

/// The value with another lower half.
pub fn with_low_half(value: u64, word: u32) -> u64
    ensures { result ≡ halves.with_low value word }
{
    u64::from(high_half(value)) * (1 << 32) + u64::from(word)
}

/// The value with another upper half.
pub fn with_high_half(value: u64, word: u32) -> u64
    ensures { result ≡ halves.with_high value word }
{
    u64::from(word) * (1 << 32) + u64::from(low_half(value))
}
