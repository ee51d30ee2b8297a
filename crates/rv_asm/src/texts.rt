//! Parts of a line: comments, blanks, words, names and registers.
ghost use Rattle.std.specs.Prelude.{◌≡◌, ◌-◌, ◌<◌, ◌≤◌, true, length, drop, slice_index};
ghost use Rattle.std.specs.Option.{option_map};
ghost use Rattle.std.specs.List.{prefix_len, suffix_len, position_or_len, before_first};
ghost use Rattle.rv_asm.specs.Texts.{is_blank, trimmed, cut, code_of, register_of};

/// Whether the byte is a space or a tab.
fn is_blank(b: u8) -> bool
    ensures { result ≡ is_blank b }
{
    b == b' ' || b == b'\t'
}

/// How many blanks stand at the front.
fn front_blanks(bytes: &[u8]) -> usize
    ensures { result ≡ prefix_len is_blank bytes.now }
{
    for (i, &b) in bytes.iter().enumerate() {
        if !is_blank(b) {
            return i;
        }
    }
    bytes.len()
}

/// How long the bytes are without the blanks at the end.
fn length_to_back(bytes: &[u8]) -> usize
    ensures value { result ≡ length bytes.now - suffix_len is_blank bytes.now }
    ensures within { result ≤ length bytes.now }
    ensures blank { result < length bytes.now → is_blank (slice_index bytes.now result) ≡ true }
{
    let mut n = bytes.len();
    while n > 0 && is_blank(bytes[n - 1]) {
        n -= 1;
    }
    n
}

/// How many bytes stand before the first blank.
fn word_length(bytes: &[u8]) -> usize
    ensures { result ≡ position_or_len is_blank bytes.now }
{
    for (i, &b) in bytes.iter().enumerate() {
        if is_blank(b) {
            return i;
        }
    }
    bytes.len()
}

/// The text without the blanks around it.
#[tactic(auto, unfolding(crate::specs::Texts::trimmed))]
pub(crate) fn trimmed(text: &str) -> &str
    ensures { result.now ≡ trimmed text.now }
{
    let front = front_blanks(text.as_bytes());
    let rest = &text[front..];
    let length = length_to_back(rest.as_bytes());
    &rest[..length]
}

/// The text up to its first blank, and the rest of it.
pub(crate) fn first_word(text: &str) -> (&str, &str)
    ensures word { result.0.now ≡ before_first is_blank text.now }
    ensures rest { result.1.now ≡ drop (position_or_len is_blank text.now) text.now }
{
    let n = word_length(text.as_bytes());
    (&text[..n], &text[n..])
}

/// What stands before and after the first such sign.
pub(crate) fn cut(text: &str, sign: char) -> Option<(&str, &str)>
    requires { sign < 128 }
    ensures { option_map (λ x. (x.0.now, x.1.now)) result ≡ cut sign text.now }
{
    text.split_once(sign)
}

/// The line without its comment.
pub(crate) fn code_of(line: &str) -> &str
    ensures { result.now ≡ code_of line.now }
{
    match cut(line, '#') {
        Some((code, _)) => code,
        None => line,
    }
}

/// The number of the register that the text names.
pub(crate) fn register_of(text: &str) -> Option<u8>
    ensures { result ≡ register_of text.now }
{
    match text.as_bytes() {
        [b'x', a] if a.is_ascii_digit() => Some(*a - b'0'),
        [b'x', a, b] if a.is_ascii_digit() && b.is_ascii_digit() && *a > b'0' => {
            let n = (*a - b'0') * 10 + (*b - b'0');
            if n <= 31 { Some(n) } else { None }
        }
        _ => None,
    }
}
