//! A counter that wraps at 2^64 and rises by the laboratory's clock.
ghost use Rattle.std.specs.Prelude.{◌≡◌, ◌%◌, ◌^◌, ◌<◌, ◌≤◌, ℕ};
ghost use Rattle.clint.specs.Mtime.{counter, offset_for, ticks};

const MICROS_PER_SECOND: u64 = 1_000_000;

/// How often a counter of so many hertz rises in so many microseconds, by 64 bits. Whole seconds
/// and the rest are taken apart, so that no product needs more bits.
pub fn ticks(frequency: u32, micros: u64) -> u64
    ensures { result ≡ ticks frequency micros % 2 ^ 64 }
{
    let hertz = u64::from(frequency);
    let whole = (micros / MICROS_PER_SECOND).wrapping_mul(hertz);
    let rest = micros % MICROS_PER_SECOND * hertz / MICROS_PER_SECOND;
    whole.wrapping_add(rest)
}

/// What a counter shows that began at an offset.
pub fn counter(offset: u64, frequency: u32, micros: u64) -> u64
    ensures { result ≡ counter offset (ticks frequency micros) }
{
    offset.wrapping_add(ticks(frequency, micros))
}

/// The offset of a counter that shows a value.
pub fn offset_for(value: u64, frequency: u32, micros: u64) -> u64
    ensures offset { result ≡ offset_for value (ticks frequency micros) }
    ensures shown { counter result (ticks frequency micros) ≡ value }
{
    value.wrapping_sub(ticks(frequency, micros))
}

/// How often a counter of so many hertz rises in so many microseconds.
#[tactic(auto, unfolding(crate::specs::Mtime::ticks))]
pub fn all_ticks(frequency: u32, micros: u64) -> u128
    ensures value { result ≡ ticks frequency micros }
    ensures fits { result < 2 ^ 96 }
{
    u128::from(micros) * u128::from(frequency) / u128::from(MICROS_PER_SECOND)
}

/// The first microsecond until which a counter of so many hertz rises so often.
pub fn micros_until(frequency: u32, rises: u128) -> u128
    requires frequency { 1 ≤ frequency }
    requires fits { rises < 2 ^ 100 }
    ensures before { (t : ℕ) → t < result → ticks frequency t < rises }
    ensures reached { rises ≤ ticks frequency result }
{
    let hertz = u128::from(frequency);
    (rises * u128::from(MICROS_PER_SECOND) + (hertz - 1)) / hertz
}
