//! A line's tokens, cut at signs.
ghost use Rattle.std.specs.Prelude.{◌≡◌, ◌<◌, IfOk, IfSome, length, map, position};
ghost use Rattle.std.specs.Option.{option_map};
ghost use Rattle.repl_read.specs.Cuts.{is_mark, cut, parts};

use crate::tokens::Token;
use std::alloc::{AllocError, Global};

/// A sign at which a line is cut.
#[derive(Clone, Copy)]
pub(crate) enum Mark {
    Colon,
    Semicolon,
    Comma,
    Arrow,
    EndList,
    OpenBrace,
    CloseBrace,
}

pub(crate) fn is_mark(sign: Mark, token: &Token) -> bool
    ensures { result ≡ is_mark sign token.now }
{
    matches!(
        (sign, token),
        (Mark::Colon, Token::Colon)
            | (Mark::Semicolon, Token::Semicolon)
            | (Mark::Comma, Token::Comma)
            | (Mark::Arrow, Token::Arrow)
            | (Mark::EndList, Token::EndList)
            | (Mark::OpenBrace, Token::OpenBrace)
            | (Mark::CloseBrace, Token::CloseBrace)
    )
}

/// The place of the first such sign.
fn place_of(sign: Mark, tokens: &[Token]) -> Option<usize>
    ensures place { result ≡ position (is_mark sign) tokens.now }
    ensures inside { IfSome result (λ at. at < length tokens.now) }
{
    tokens.iter().position(|token| is_mark(sign, token))
}

/// What stands before and after the first such sign.
pub(crate) fn cut(sign: Mark, tokens: &[Token]) -> Option<(&[Token], &[Token])>
    ensures { option_map (λ x. (x.0.now, x.1.now)) result ≡ cut sign tokens.now }
{
    match place_of(sign, tokens) {
        Some(at) => Some((&tokens[..at], &tokens[at + 1..])),
        None => None,
    }
}

/// What stands between such signs, and before the first and after the last.
pub(crate) fn parts(
    alloc: Global,
    sign: Mark,
    tokens: &[Token],
) -> Result<Vec<&[Token]>, AllocError>
    ensures { IfOk result (λ made. map (λ part. part.now) made.items ≡ parts sign tokens.now) }
{
    tokens.split(|token| is_mark(sign, token)).collect(alloc)
}
