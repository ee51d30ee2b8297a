//! The words of a line.
ghost use Rattle.std.specs.Prelude.{◌≡◌, ◌<◌, ◌++◌, ◌∷◌, [], filter, map, length, IfOk};
ghost use Rattle.resc_read.specs.Words as words;
ghost use Rattle.resc_read.specs.Piece.{IsFirstPiece};

use lab_num::NoMemory;
use std::alloc::Global;

/// Whether a byte is a space or a tab.
pub fn is_blank(b: u8) -> bool
    ensures { result ≡ words.is_blank b }
{
    b == b' ' || b == b'\t'
}

/// How many bytes of a line stand before its first blank outside quotes: all where there is none.
pub fn piece_len(line: &[u8]) -> usize
    ensures { IsFirstPiece line.now result }
{
    let mut quoted = false;
    for (i, &b) in line.iter().enumerate() {
        if !quoted && is_blank(b) {
            return i;
        }
        if b == b'"' {
            quoted = !quoted;
        }
    }
    line.len()
}

/// The first piece of a line, and what stands after its blank.
fn cut_piece(line: &str) -> (&str, &str)
    requires { 0 < length line.now }
    ensures words { words.words line.now
        ≡ filter words.is_some_text (result.0.now ∷ []) ++ words.words result.1.now }
    ensures shorter { length result.1.now < length line.now }
{
    let n = piece_len(line.as_bytes());
    if n == line.len() {
        return (line, "");
    }
    (&line[..n], &line[n + 1..])
}

/// The words of a line, in order: what stands between its blanks outside quotes.
pub fn words_of(alloc: Global, line: &str) -> Result<Vec<&str>, NoMemory>
    ensures { IfOk result (λ found. map (λ word. word.now) found.items ≡ words.words line.now) }
{
    let mut found = Vec::new(alloc);
    let mut rest = line;
    while !rest.is_empty() {
        let (piece, after) = cut_piece(rest);
        if !piece.is_empty() {
            found.push(piece)?;
        }
        rest = after;
    }
    Ok(found)
}
