//! Comments, which become blanks.
ghost use Rattle.std.specs.Prelude.{◌≡◌, IfOk, slice_index};
ghost use Rattle.std.specs.Option.{option_map};
ghost use Rattle.std.specs.String.{string_bytes};
ghost use Rattle.repl_read.specs.Comments.{turn_at, after_sign, ends_line, seen, closes, marks, blanked};
ghost use Rattle.repl_read.specs.Inner.Turns.{turn};

use std::alloc::{AllocError, Global};

/// What a sign stands in.
#[derive(Clone, Copy)]
pub(crate) enum Inside {
    Nothing,
    /// A string.
    Words,
    /// A comment that ends with its line.
    Line,
    /// A comment that ends at `*/`.
    Block,
}

/// What stands after two signs that begin or end a comment.
fn turn_at(inside: Inside, b: u8, next: u8) -> Option<Inside>
    ensures { result ≡ turn_at inside b next }
{
    match (inside, b, next) {
        (Inside::Nothing, b'/', b'/') => Some(Inside::Line),
        (Inside::Nothing, b'/', b'*') => Some(Inside::Block),
        (Inside::Block, b'*', b'/') => Some(Inside::Nothing),
        _ => None,
    }
}

/// What stands after any other sign.
fn after_sign(inside: Inside, b: u8) -> Inside
    ensures { result ≡ after_sign inside b }
{
    match (inside, b) {
        (Inside::Nothing, b'"') => Inside::Words,
        (Inside::Words, b'"' | b'\n') | (Inside::Line, b'\n') => Inside::Nothing,
        _ => inside,
    }
}

fn ends_line(b: u8, next: u8) -> bool
    ensures { result ≡ ends_line b next }
{
    b == b'\n' || (b == b'\r' && next == b'\n')
}

/// What is seen of a sign.
fn seen(inside: Inside, b: u8, next: u8) -> u8
    ensures { result ≡ seen inside b next }
{
    match inside {
        Inside::Line | Inside::Block if !ends_line(b, next) => b' ',
        _ => b,
    }
}

/// The first byte, or 0 where there is none.
pub(crate) fn first_byte(bytes: &[u8]) -> u8
    ensures { result ≡ slice_index bytes.now 0 }
{
    match bytes {
        [first, ..] => *first,
        [] => 0,
    }
}

/// What stands after two signs that begin or end a comment, and the rest of the text.
fn turn(inside: Inside, b: u8, more: &[u8]) -> Option<(Inside, &[u8])>
    ensures { option_map (λ x. (x.0, x.1.now)) result ≡ turn inside b more.now }
{
    let (next, rest) = more.split_first()?;
    let then = turn_at(inside, b, *next)?;
    Some((then, rest))
}

/// Whether `*/` stands in the bytes.
fn closes(bytes: &[u8]) -> bool
    ensures { result ≡ closes bytes.now }
{
    let mut rest = bytes;
    'signs: while let Some((b, more)) = rest.split_first() {
        if *b == b'*' && first_byte(more) == b'/' {
            return true;
        }
        rest = more;
    }
    false
}

/// What is seen of two signs that begin or end a comment.
fn marks(then: Inside, rest: &[u8]) -> [u8; 2]
    ensures { result ≡ marks then rest.now }
{
    match then {
        Inside::Block if !closes(rest) => *b" *",
        _ => *b"  ",
    }
}

/// The text with blanks for its comments.
fn blanked(alloc: Global, text: &[u8]) -> Result<Vec<u8>, AllocError>
    ensures { IfOk result (λ made. made.items ≡ blanked Inside.Nothing text.now) }
{
    let mut made = Vec::new(alloc);
    let mut inside = Inside::Nothing;
    let mut rest = text;
    'signs: while let Some((b, more)) = rest.split_first() {
        match turn(inside, *b, more) {
            Some((then, after)) => {
                made.extend_from_slice(&marks(then, after))?;
                inside = then;
                rest = after;
            }
            None => {
                made.push(seen(inside, *b, first_byte(more)))?;
                inside = after_sign(inside, *b);
                rest = more;
            }
        }
    }
    Ok(made)
}

/// The text with blanks for its comments. The signs of a comment that is not closed stay no text
/// of any form: a `*` stands for its begin.
pub(crate) fn without_comments(alloc: Global, text: &str) -> Result<String, AllocError>
    ensures { IfOk result (λ made. string_bytes made ≡ blanked Inside.Nothing text.now) }
{
    let made = blanked(alloc, text.as_bytes())?;
    Ok(String::from_utf8(made).unwrap())
}
