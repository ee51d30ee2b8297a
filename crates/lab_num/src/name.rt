//! The forms of names.
ghost use Rattle.std.specs.Prelude.{◌≡◌};
ghost use Rattle.std.specs.List.{list_all};
ghost use Rattle.lab_num.specs.Name.{is_identifier_byte, is_name_byte};
ghost use Rattle.lab_num.specs.Name as name;

fn is_name_char(b: u8) -> bool
    ensures { result ≡ is_name_byte b }
{
    b.is_ascii_alphanumeric() || b == b'_' || b == b'-'
}

fn are_name_chars(text: &str) -> bool
    ensures { result ≡ list_all is_name_byte text.now }
{
    text.bytes().all(is_name_char)
}

/// Whether the text may name a board or a hub: it is not empty, and all its characters are ASCII
/// letters, digits, `_` or `-`.
pub fn is_name(text: &str) -> bool
    ensures { result ≡ name.is_name text.now }
{
    !text.is_empty() && are_name_chars(text)
}

fn is_identifier_char(b: u8) -> bool
    ensures { result ≡ is_identifier_byte b }
{
    b.is_ascii_alphanumeric() || b == b'_'
}

fn are_identifier_chars(text: &str) -> bool
    ensures { result ≡ list_all is_identifier_byte text.now }
{
    text.bytes().all(is_identifier_char)
}

/// Whether the text is an identifier, as an entry of a platform and a label of an assembler text
/// have it: an ASCII letter, then ASCII letters, digits or `_`.
pub fn is_identifier(text: &str) -> bool
    ensures { result ≡ name.is_identifier text.now }
{
    match text.as_bytes() {
        [first, ..] => first.is_ascii_alphabetic() && are_identifier_chars(text),
        [] => false,
    }
}
