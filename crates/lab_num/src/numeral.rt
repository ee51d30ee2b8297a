//! Numbers as platform files and scripts write them.
ghost use Rattle.std.specs.Prelude.{◌≡◌};
ghost use Rattle.std.specs.List.{list_all};
ghost use Rattle.std.specs.Char.{is_ascii_digit, is_ascii_hexdigit};
ghost use Rattle.lab_num.specs.Numeral.{numeral};
ghost use Rattle.lab_num.specs.Numeral as numerals;

/// Whether the text has decimal digits alone.
pub(crate) fn are_digits(text: &str) -> bool
    ensures { result ≡ list_all is_ascii_digit text.now }
{
    text.bytes().all(|b| b.is_ascii_digit())
}

fn are_hexadecimal_digits(text: &str) -> bool
    ensures { result ≡ list_all is_ascii_hexdigit text.now }
{
    text.bytes().all(|b| b.is_ascii_hexdigit())
}

fn decimal(text: &str) -> Option<u32>
    ensures { result ≡ numeral is_ascii_digit 10 text.now }
{
    if text.is_empty() || !are_digits(text) {
        return None;
    }
    u32::from_str_radix(text, 10).ok()
}

fn hexadecimal(text: &str) -> Option<u32>
    ensures { result ≡ numeral is_ascii_hexdigit 16 text.now }
{
    if text.is_empty() || !are_hexadecimal_digits(text) {
        return None;
    }
    u32::from_str_radix(text, 16).ok()
}

/// The number below 2^32 that a text writes without a sign: in decimal, or after `0x` in
/// hexadecimal. Zeros may stand in front. `None` for any other text.
pub fn number_of(text: &str) -> Option<u32>
    ensures { result ≡ numerals.number_of text.now }
{
    match text.strip_prefix("0x") {
        Some(digits) => hexadecimal(digits),
        None => decimal(text),
    }
}
