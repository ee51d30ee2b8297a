//! A line as its words, strings and signs.
ghost use Rattle.std.specs.Prelude.{◌≡◌, ◌≢◌, ◌<◌, ◌≤◌, true, false, IfOk, length, map, take, slice_index};
ghost use Rattle.std.specs.List.{list_all};
ghost use Rattle.std.specs.Str.{byte};
ghost use Rattle.std.specs.Str.Lines.{lines};
ghost use Rattle.repl_read.specs.Comments.{quote};
ghost use Rattle.repl_read.specs.Inner.Steps.{IsStep, is_no_quote};
ghost use Rattle.repl_read.specs.Tokens.{is_blank, is_word_byte, sign_of, tokens_of, token_line};

use crate::comments::first_byte;
use lab_num::{NoMemory, Rows, Text};
use std::alloc::{AllocError, Global};

/// A word, a string or a sign.
#[derive(Drop)]
pub(crate) enum Token {
    /// A run of letters, digits, `_` and dots.
    Word(Text),
    /// What stands between quotes.
    Quoted(Text),
    Colon,
    Semicolon,
    Comma,
    At,
    Plus,
    Minus,
    /// `->`
    Arrow,
    Less,
    More,
    /// `[`
    StartList,
    /// `]`
    EndList,
    OpenBrace,
    CloseBrace,
    Bar,
    /// Any other sign, or a string that is not closed.
    Other,
}

/// A line: whether it begins with a blank, and its tokens.
#[derive(Drop)]
pub(crate) struct TokenLine {
    pub(crate) indented: bool,
    pub(crate) tokens: Rows<Token>,
}

fn is_blank(b: u8) -> bool
    ensures { result ≡ is_blank b }
{
    b == b' ' || b == b'\t'
}

fn is_word_byte(b: u8) -> bool
    ensures { result ≡ is_word_byte b }
{
    b.is_ascii_alphanumeric() || b == b'_' || b == b'.'
}

fn sign_of(b: u8) -> Token
    ensures { result ≡ sign_of b }
{
    match b {
        b':' => Token::Colon,
        b';' => Token::Semicolon,
        b',' => Token::Comma,
        b'@' => Token::At,
        b'+' => Token::Plus,
        b'<' => Token::Less,
        b'>' => Token::More,
        b'[' => Token::StartList,
        b']' => Token::EndList,
        b'{' => Token::OpenBrace,
        b'}' => Token::CloseBrace,
        b'|' => Token::Bar,
        _ => Token::Other,
    }
}

/// One token, or none for a blank, and the place in the line where it ends.
#[derive(Drop)]
struct TokenStep {
    token: Option<Token>,
    end: usize,
}

/// How many bytes of a word stand in front.
fn word_length(bytes: &[u8]) -> usize
    ensures within { result ≤ length bytes.now }
    ensures word { list_all is_word_byte (take result bytes.now) ≡ true }
    ensures ends { is_word_byte (slice_index bytes.now result) ≡ false }
{
    for (i, &b) in bytes.iter().enumerate() {
        if !is_word_byte(b) {
            return i;
        }
    }
    bytes.len()
}

/// How many bytes stand before the first quote.
fn string_length(bytes: &[u8]) -> usize
    ensures within { result ≤ length bytes.now }
    ensures string { list_all is_no_quote (take result bytes.now) ≡ true }
    ensures ends { result < length bytes.now → slice_index bytes.now result ≡ quote }
{
    for (i, &b) in bytes.iter().enumerate() {
        if b == b'"' {
            return i;
        }
    }
    bytes.len()
}

/// The word whose first byte stands at `start`.
fn word_at(alloc: Global, line: &str, start: usize) -> Result<TokenStep, NoMemory>
    requires inside { start < length line.now }
    requires word { is_word_byte (slice_index line.now start) ≡ true }
    ensures { IfOk result (IsStep line.now start) }
{
    let end = start + word_length(&line.as_bytes()[start..]);
    let word = Text::of(alloc, &line[start..end])?;
    Ok(TokenStep {
        token: Some(Token::Word(word)),
        end,
    })
}

/// The string whose first quote stands at `start`.
fn string_at(alloc: Global, line: &str, start: usize) -> Result<TokenStep, NoMemory>
    requires inside { start < length line.now }
    requires string { slice_index line.now start ≡ quote }
    ensures { IfOk result (IsStep line.now start) }
{
    let first = start + 1;
    let last = first + string_length(&line.as_bytes()[first..]);
    if last == line.len() {
        return Ok(TokenStep {
            token: Some(Token::Other),
            end: last,
        });
    }
    let words = Text::of(alloc, &line[first..last])?;
    Ok(TokenStep {
        token: Some(Token::Quoted(words)),
        end: last + 1,
    })
}

/// The dash at `start`, or the arrow that it begins.
fn dash_at(line: &[u8], start: usize) -> TokenStep
    requires inside { start < length line.now }
    requires dash { slice_index line.now start ≡ byte "-" }
    ensures { IsStep line.now start result }
{
    let end = start + 1;
    if first_byte(&line[end..]) == b'>' {
        TokenStep {
            token: Some(Token::Arrow),
            end: end + 1,
        }
    } else {
        TokenStep {
            token: Some(Token::Minus),
            end,
        }
    }
}

/// The blank or the sign at `start`.
fn sign_at(line: &[u8], start: usize) -> TokenStep
    requires inside { start < length line.now }
    requires no_word { is_word_byte (slice_index line.now start) ≡ false }
    requires no_string { slice_index line.now start ≢ quote }
    ensures { IsStep line.now start result }
{
    match line[start] {
        b'-' => dash_at(line, start),
        b if is_blank(b) => TokenStep {
            token: None,
            end: start + 1,
        },
        b => TokenStep {
            token: Some(sign_of(b)),
            end: start + 1,
        },
    }
}

/// What stands at `start`.
fn token_at(alloc: Global, line: &str, start: usize) -> Result<TokenStep, NoMemory>
    requires { start < length line.now }
    ensures { IfOk result (IsStep line.now start) }
{
    let bytes = line.as_bytes();
    match bytes[start] {
        b'"' => string_at(alloc, line, start),
        b if is_word_byte(b) => word_at(alloc, line, start),
        _ => Ok(sign_at(bytes, start)),
    }
}

/// The tokens of a line.
fn tokens_of(alloc: Global, line: &str) -> Result<Rows<Token>, NoMemory>
    ensures { IfOk result (λ made. made ≡ tokens_of false line.now) }
{
    let mut made = Vec::new(alloc);
    let mut start = 0;
    'tokens: while start < line.len() {
        let TokenStep { token, end } = token_at(alloc, line, start)?;
        if let Some(token) = token {
            made.push(token)?;
        }
        start = end;
    }
    Ok(Rows::of(made))
}

fn token_line(alloc: Global, line: &str) -> Result<TokenLine, NoMemory>
    ensures { IfOk result (λ made. made ≡ token_line line.now) }
{
    let indented = match line.as_bytes() {
        [first, ..] => is_blank(*first),
        [] => false,
    };
    let tokens = tokens_of(alloc, line)?;
    Ok(TokenLine { indented, tokens })
}

/// The lines of a text.
fn lines_of(alloc: Global, text: &str) -> Result<Vec<&str>, AllocError>
    ensures { IfOk result (λ made. map (λ line. line.now) made.items ≡ lines text.now) }
{
    text.lines().collect(alloc)
}

/// Each of some lines, as its tokens.
fn each_token_line(alloc: Global, lines: &[&str]) -> Result<Vec<TokenLine>, NoMemory>
    ensures { IfOk result (λ made. made.items ≡ map token_line (map (λ line. line.now) lines.now)) }
{
    let mut made = Vec::new(alloc);
    for line in lines {
        made.push(token_line(alloc, line)?)?;
    }
    Ok(made)
}

/// The lines of a text, as their tokens.
pub(crate) fn token_lines(alloc: Global, text: &str) -> Result<Vec<TokenLine>, NoMemory>
    ensures { IfOk result (λ made. made.items ≡ map token_line (lines text.now)) }
{
    let lines = lines_of(alloc, text)?;
    each_token_line(alloc, &lines)
}
