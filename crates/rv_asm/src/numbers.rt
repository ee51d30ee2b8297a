//! Numbers in a text, and the fields that they fit.
ghost use Rattle.std.specs.Prelude.{◌≡◌, ◌≤◌, min};
ghost use Rattle.std.specs.Option.{option_map};
ghost use Rattle.std.specs.List.{list_all};
ghost use Rattle.rv_asm.specs.Inner.Saturated.{most, saturated, is_digit_of};
ghost use Rattle.rv_asm.specs.Numbers.{numeral, magnitude_of, number_of, in_field, even_in_field};

/// A number: its sign, and its magnitude up to 2^64 - 1, which stands for those above too.
#[derive(Clone, Copy)]
pub(crate) struct Number {
    pub(crate) negative: bool,
    pub(crate) magnitude: u64,
}

/// Whether all bytes are digits, hexadecimal ones where the radix is 16 and decimal ones elsewhere.
fn are_digits(text: &str, radix: u32) -> bool
    ensures { result ≡ list_all (is_digit_of radix) text.now }
{
    text.bytes().all(|b| {
        if radix == 16 {
            b.is_ascii_hexdigit()
        } else {
            b.is_ascii_digit()
        }
    })
}

/// The number that digits of this radix write.
fn numeral(digits: &str, radix: u32) -> Option<u64>
    requires least { 10 ≤ radix }
    requires most { radix ≤ 36 }
    ensures { result
        ≡ option_map (λ n. min n most) (numeral (is_digit_of radix) radix digits.now) }
{
    if digits.is_empty() || !are_digits(digits, radix) {
        return None;
    }
    Some(u64::from_str_radix(digits, radix).unwrap_or(u64::MAX))
}

fn magnitude_of(text: &str) -> Option<u64>
    ensures { result ≡ option_map (λ n. min n most) (magnitude_of text.now) }
{
    match text.strip_prefix("0x") {
        Some(digits) => numeral(digits, 16),
        None => numeral(text, 10),
    }
}

/// The number of this sign whose digits the text writes.
fn signed(negative: bool, digits: &str) -> Option<Number>
    ensures { result ≡ option_map saturated
        (option_map (λ n. record { negative = negative; magnitude = n }) (magnitude_of digits.now)) }
{
    let magnitude = magnitude_of(digits)?;
    Some(Number {
        negative,
        magnitude,
    })
}

/// The number that the text writes.
pub(crate) fn number_of(text: &str) -> Option<Number>
    ensures { result ≡ option_map saturated (number_of text.now) }
{
    match text.strip_prefix("-") {
        Some(digits) => signed(true, digits),
        None => signed(false, text),
    }
}

impl Number {
    /// The number as 32 bits, if it is from -least to greatest.
    pub(crate) fn in_field(self, least: u32, greatest: u32) -> Option<u32>
        ensures { result ≡ in_field least greatest self }
    {
        if !self.negative {
            return if self.magnitude <= u64::from(greatest) {
                Some(self.magnitude as u32)
            } else {
                None
            };
        }
        if self.magnitude <= u64::from(least) {
            Some(0u32.wrapping_sub(self.magnitude as u32))
        } else {
            None
        }
    }

    /// The same, if the number is even.
    pub(crate) fn even_in_field(self, least: u32, greatest: u32) -> Option<u32>
        ensures { result ≡ even_in_field least greatest self }
    {
        if self.magnitude % 2 == 0 {
            self.in_field(least, greatest)
        } else {
            None
        }
    }
}
