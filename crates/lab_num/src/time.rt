//! The texts of times.
ghost use Rattle.std.specs.Prelude.{◌≡◌, ◌<◌, ◌≤◌, ◌*◌, ◌^◌, IfSome};
ghost use Rattle.std.specs.Option.{option_map};
ghost use Rattle.lab_num.specs.Time as times;

use crate::number::Micros;
use crate::numeral::are_digits;

/// Why a text is no time.
#[derive(Clone, Copy, PartialEq, Eq)]
pub enum TimeFault {
    /// It is not of the form of a time.
    Form,
    /// It is of that form, and says more than 10,000 seconds.
    Limit,
}

/// The last microsecond that a laboratory has, and the greatest time that a text may say: ten
/// thousand seconds.
pub const LAST: Micros = Micros(10_000_000_000);

/// The text before the first `sign` and the text after it.
fn cut(text: &str, sign: char) -> Option<(&str, &str)>
    requires { sign < 128 }
    ensures { option_map (λ x. (x.0.now, x.1.now)) result ≡ times.cut sign text.now }
{
    text.split_once(sign)
}

/// The number that one to `most` decimal digits write.
fn digits(text: &str, most: usize) -> Option<u64>
    requires { most ≤ 19 }
    ensures value { result ≡ times.digits most text.now }
    ensures fits { IfSome result (λ n. n < 10 ^ most) }
{
    if text.is_empty() || text.len() > most || !are_digits(text) {
        return None;
    }
    text.parse().ok()
}

fn sixtieths(text: &str) -> Option<u64>
    ensures value { result ≡ times.sixtieths text.now }
    ensures fits { IfSome result (λ n. n < 60) }
{
    let n = digits(text, 2)?;
    if n <= 59 { Some(n) } else { None }
}

fn sum(hours: &str, minutes: &str, seconds: &str) -> Option<u64>
    ensures value { result ≡ times.sum_of hours.now minutes.now seconds.now }
    ensures fits { IfSome result (λ n. n < 10 ^ 10) }
{
    let hours = digits(hours, 4)?;
    let minutes = sixtieths(minutes)?;
    let seconds = sixtieths(seconds)?;
    Some(hours * 3600 + minutes * 60 + seconds)
}

/// The seconds that the text says before its point.
fn clock(text: &str) -> Option<u64>
    ensures value { result ≡ times.clock_of text.now }
    ensures fits { IfSome result (λ n. n < 10 ^ 10) }
{
    let Some((hours, rest)) = cut(text, ':') else {
        return digits(text, 10);
    };
    let Some((minutes, seconds)) = cut(rest, ':') else {
        return None;
    };
    sum(hours, minutes, seconds)
}

/// The microseconds that the digits after the point say.
fn fraction(text: &str) -> Option<u64>
    ensures value { result ≡ times.fraction_of text.now }
    ensures fits { IfSome result (λ n. n < 10 ^ 12) }
{
    let n = digits(text, 6)?;
    Some(n * 10_u64.pow(6 - text.len() as u32))
}

fn micros(text: &str) -> Option<u64>
    ensures { result ≡ times.micros_of text.now }
{
    match cut(text, '.') {
        None => clock(text).map(|seconds| seconds * 1_000_000),
        Some((whole, part)) => Some(clock(whole)? * 1_000_000 + fraction(part)?),
    }
}

/// The length of time that a text says: seconds, as `S` or `S.F`, or hours, minutes and seconds,
/// as `H:M:S` or `H:M:S.F`. `S` alone has 1 to 10 digits, `F` has 1 to 6. With colons `H` has 1 to
/// 4 digits, and `M` and `S` have 1 or 2 and are at most 59. Every other text is a fault of form;
/// a time above 10,000 seconds is beyond the limit.
pub fn read_time(text: &str) -> Result<Micros, TimeFault>
    ensures { result ≡ times.time_of text.now }
{
    let n = micros(text).ok_or(TimeFault::Form)?;
    if n > LAST.0 {
        return Err(TimeFault::Limit);
    }
    Ok(Micros(n))
}
