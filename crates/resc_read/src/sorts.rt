//! The sorts of words, and what a word of each sort says.
ghost use Rattle.std.specs.Prelude.{◌≡◌, ◌<◌, Some, None};
ghost use Rattle.std.specs.Option.{option_map};
ghost use Rattle.lab_num.specs.Time as times;
ghost use Rattle.resc_read.specs.Sorts as sorts;

use lab_num::is_name;

/// The text before the first `sign`, and the text after it.
pub fn cut(text: &str, sign: char) -> Option<(&str, &str)>
    requires { sign < 128 }
    ensures { option_map (λ x. (x.0.now, x.1.now)) result ≡ times.cut sign text.now }
{
    text.split_once(sign)
}

fn has_quote(word: &str) -> bool
    ensures { result ≡ sorts.has_quote word.now }
{
    word.bytes().any(|b| b == b'"')
}

/// A word without quotes that is no path.
fn plain_of(word: &str) -> Option<&str>
    ensures { option_map (λ text. text.now) result ≡ sorts.plain_of word.now }
{
    if word.starts_with("@") || has_quote(word) {
        None
    } else {
        Some(word)
    }
}

/// The text of a word in quotes.
fn quoted_of(word: &str) -> Option<&str>
    ensures { option_map (λ text. text.now) result ≡ sorts.quoted_of word.now }
{
    let (front, rest) = cut(word, '"')?;
    let (text, end) = cut(rest, '"')?;
    if front.is_empty() && end.is_empty() {
        Some(text)
    } else {
        None
    }
}

/// The text of a word that may stand with or without quotes.
pub fn text_of(word: &str) -> Option<&str>
    ensures { option_map (λ text. text.now) result ≡ sorts.text_of word.now }
{
    match plain_of(word) {
        Some(text) => Some(text),
        None => quoted_of(word),
    }
}

fn is_web_path(path: &str) -> bool
    ensures { result ≡ sorts.is_web_path path.now }
{
    path.starts_with("http://") || path.starts_with("https://")
}

/// The path of a word `@path`, which has no quote and names no place of the web.
pub fn path_of(word: &str) -> Option<&str>
    ensures { option_map (λ path. path.now) result ≡ sorts.path_of word.now }
{
    let path = word.strip_prefix("@")?;
    if has_quote(word) || path.is_empty() || is_web_path(path) {
        return None;
    }
    Some(path)
}

/// The name of a board or of a hub.
pub(crate) fn name_of(word: &str) -> Option<&str>
    ensures { option_map (λ name. name.now) result ≡ sorts.name_of word.now }
{
    let name = text_of(word)?;
    if is_name(name) { Some(name) } else { None }
}

/// `true` or `false`, in any ASCII case.
pub(crate) fn truth_of(word: &str) -> Option<bool>
    ensures { result ≡ sorts.truth_of word.now }
{
    if word.eq_ignore_ascii_case("true") {
        Some(true)
    } else if word.eq_ignore_ascii_case("false") {
        Some(false)
    } else {
        None
    }
}
