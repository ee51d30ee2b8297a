//! The lines of a file.
ghost use Rattle.std.specs.Prelude.{◌≡◌, ◌<◌, ◌==◌, ◌∷◌, length};
ghost use Rattle.std.specs.List.{position};
ghost use Rattle.std.specs.Str.Lines.{lines, strip_carriage_return};
ghost use Rattle.ihex_load.specs.Record as records;

/// Whether a line is empty or has only spaces and tabs.
pub(crate) fn is_blank_line(line: &[u8]) -> bool
    ensures { result ≡ records.is_blank_line line.now }
{
    line.iter().all(|b| matches!(b, b' ' | b'\t'))
}

/// What stands before a line feed, without the carriage return just before it.
fn without_return(line: &[u8]) -> &[u8]
    ensures { result.now ≡ strip_carriage_return line.now }
{
    match line.strip_suffix(b"\r") {
        Some(front) => front,
        None => line,
    }
}

/// Where the first line feed stands.
fn feed_of(text: &[u8]) -> Option<usize>
    ensures { result ≡ position (λ b. b == 10) text.now }
{
    text.iter().position(|b| *b == b'\n')
}

/// The first line of a text that is not empty, and the text after it.
pub(crate) fn first_line(text: &[u8]) -> (&[u8], &[u8])
    requires { 0 < length text.now }
    ensures lines { lines text.now ≡ result.0.now ∷ lines result.1.now }
    ensures less { length result.1.now < length text.now }
{
    match feed_of(text) {
        Some(n) => (without_return(&text[..n]), &text[n + 1..]),
        None => (text, &[]),
    }
}
