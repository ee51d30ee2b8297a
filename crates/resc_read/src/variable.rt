//! The names of variables and macros, and the words that set a variable.
ghost use Rattle.std.specs.Prelude.{◌≡◌, slice_index};
ghost use Rattle.std.specs.List.{list_all};
ghost use Rattle.std.specs.Option.{option_map};
ghost use Rattle.resc_read.specs.Variable as variables;

use crate::sorts::cut;

fn is_variable_byte(b: u8) -> bool
    ensures { result ≡ variables.is_variable_byte b }
{
    b.is_ascii_alphanumeric() || b == b'_'
}

fn begins_with_letter(text: &str) -> bool
    ensures { result ≡ variables.begins_variable (slice_index text.now 0) }
{
    match text.as_bytes().first() {
        Some(&first) => first.is_ascii_alphabetic() || first == b'_',
        None => false,
    }
}

fn are_variable_bytes(text: &str) -> bool
    ensures { result ≡ list_all variables.is_variable_byte text.now }
{
    text.bytes().all(is_variable_byte)
}

/// Whether a text is the name of a variable or of a macro: an ASCII letter or `_`, and then ASCII
/// letters, digits or `_`.
pub fn is_variable_name(text: &str) -> bool
    ensures { result ≡ variables.is_variable_name text.now }
{
    begins_with_letter(text) && are_variable_bytes(text)
}

/// The name in a word `$name`.
pub fn variable_of(word: &str) -> Option<&str>
    ensures { option_map (λ name. name.now) result ≡ variables.variable_of word.now }
{
    let name = word.strip_prefix("$")?;
    if is_variable_name(name) {
        Some(name)
    } else {
        None
    }
}

/// What stands to the left of the first `=` of a text, or of its `?=`.
fn left_of(text: &str) -> Option<&str>
    ensures { option_map (λ left. left.now) result ≡ variables.left_of text.now }
{
    let (front, _) = cut(text, '=')?;
    let Some((left, between)) = cut(front, '?') else {
        return Some(front);
    };
    if between.is_empty() { Some(left) } else { None }
}

fn sets_variable(word: &str) -> bool
    ensures { result ≡ variables.sets_variable word.now }
{
    match left_of(word) {
        Some(left) => variable_of(left).is_some(),
        None => false,
    }
}

fn begins_with_sign(word: &str) -> bool
    ensures { result ≡ variables.begins_with_sign word.now }
{
    match left_of(word) {
        Some(left) => left.is_empty(),
        None => false,
    }
}

/// Whether a line with these first words sets a variable.
pub(crate) fn is_assignment(first: &str, second: &str) -> bool
    ensures { result ≡ variables.is_assignment first.now second.now }
{
    sets_variable(first) || (variable_of(first).is_some() && begins_with_sign(second))
}
