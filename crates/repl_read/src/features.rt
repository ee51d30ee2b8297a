//! What Renode's format has and this reader leaves out.
ghost use Rattle.std.specs.Prelude.{◌≡◌};
ghost use Rattle.std.specs.List.{list_any};
ghost use Rattle.repl_read.specs.Features.{is_feature_word, is_feature, is_section_word, begins_section, in_item};
ghost use Rattle.repl_read.specs.Features.{has_type, is_at, in_head, in_parts, in_list};
ghost use Rattle.repl_read.specs.Cuts.{is_mark};

use crate::cuts::{Mark, cut, is_mark};
use crate::tokens::Token;
use lab_num::Text;

fn is_feature_word(word: &Text) -> bool
    ensures { result ≡ is_feature_word word.now }
{
    matches!(word.as_str(), "local" | "as" | "new" | "none")
}

fn is_feature(token: &Token) -> bool
    ensures { result ≡ is_feature token.now }
{
    match token {
        Token::Bar => true,
        Token::Word(word) => is_feature_word(word),
        _ => false,
    }
}

fn has_feature(tokens: &[Token]) -> bool
    ensures { result ≡ list_any is_feature tokens.now }
{
    tokens.iter().any(is_feature)
}

fn is_section_word(word: &Text) -> bool
    ensures { result ≡ is_section_word word.now }
{
    matches!(word.as_str(), "init" | "reset" | "preinit")
}

/// Whether the first word begins a section of commands.
fn begins_section(tokens: &[Token]) -> bool
    ensures { result ≡ begins_section tokens.now }
{
    for token in tokens {
        if let Token::Word(word) = token {
            return is_section_word(word);
        }
    }
    false
}

/// Whether an item has a feature that is left out.
pub(crate) fn in_item(tokens: &[Token]) -> bool
    ensures { result ≡ in_item tokens.now }
{
    has_feature(tokens) || begins_section(tokens)
}

/// Whether a head has a type: a word follows its first `:`.
fn has_type(tokens: &[Token]) -> bool
    ensures { result ≡ has_type tokens.now }
{
    matches!(cut(Mark::Colon, tokens), Some((_, [Token::Word(_), ..])))
}

fn is_at(token: &Token) -> bool
    ensures { result ≡ is_at token.now }
{
    matches!(token, Token::At)
}

fn has_at(tokens: &[Token]) -> bool
    ensures { result ≡ list_any is_at tokens.now }
{
    tokens.iter().any(is_at)
}

/// Whether a head has a feature that is left out.
pub(crate) fn in_head(tokens: &[Token]) -> bool
    ensures { result ≡ in_head tokens.now }
{
    in_item(tokens) || (has_at(tokens) && !has_type(tokens))
}

/// Whether some part between braces has a feature that is left out.
pub(crate) fn in_parts(tokens: &[Token]) -> bool
    ensures { result ≡ in_parts tokens.now }
{
    tokens.split(is_semicolon).any(in_item)
}

fn is_semicolon(token: &Token) -> bool
    ensures { result ≡ is_mark Mark.Semicolon token.now }
{
    is_mark(Mark::Semicolon, token)
}

/// Whether a line between braces has a feature that is left out, or what stands after its `}`.
pub(crate) fn in_list(tokens: &[Token]) -> bool
    ensures { result ≡ in_list tokens.now }
{
    match cut(Mark::CloseBrace, tokens) {
        Some((inner, rest)) => in_parts(inner) || in_item(rest),
        None => in_parts(tokens),
    }
}
