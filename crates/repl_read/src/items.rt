//! The items of an entry: attributes and wires.
ghost use Rattle.std.specs.Prelude.{◌≡◌, [], ◌∷◌, codes, map};
ghost use Rattle.std.specs.Str.{bytes_eq};
ghost use Rattle.repl_read.specs.Inner.Gives.{Gives};
ghost use Rattle.repl_read.specs.Items.{word_value, attribute_of, span_of, spans_of, bracketed, one_span, pins_of};
ghost use Rattle.repl_read.specs.Items.{numbered_ends, source_of, wire_of, item_of, items_of};

use crate::cuts::{Mark, cut, parts};
use crate::entry::{Ends, ItemWhat, Span, Value};
use crate::fault::{Fault, ReadCause};
use crate::heads::number;
use crate::numbers::is_dotted_name;
use crate::tokens::Token;
use lab_num::{Rows, Text, is_identifier, number_of};
use std::alloc::Global;

/// The value that a word is.
fn word_value(word: &Text) -> Result<Value, Fault>
    ensures { Gives result (word_value word.now) }
{
    let text = word.as_str();
    if let Some(n) = number_of(text) {
        return Ok(Value::Number(n));
    }
    match text {
        "true" => Ok(Value::Truth(true)),
        "false" => Ok(Value::Truth(false)),
        _ if is_dotted_name(text) => Ok(Value::Name(word.clone()?)),
        _ => Err(Fault::Cause(ReadCause::Form)),
    }
}

/// The attribute whose value is a word.
fn word_attribute(key: &Text, word: &Text) -> Result<ItemWhat, Fault>
    ensures { Gives result
        (attribute_of (Token.Word key.now ∷ Token.Colon ∷ Token.Word word.now ∷ [])) }
{
    if !is_identifier(key.as_str()) {
        return Err(Fault::Cause(ReadCause::Form));
    }
    let value = word_value(word)?;
    Ok(ItemWhat::Attribute {
        key: key.clone()?,
        value,
    })
}

/// The attribute whose value is a string.
fn string_attribute(key: &Text, words: &Text) -> Result<ItemWhat, Fault>
    ensures { Gives result
        (attribute_of (Token.Word key.now ∷ Token.Colon ∷ Token.Quoted words.now ∷ [])) }
{
    if !is_identifier(key.as_str()) {
        return Err(Fault::Cause(ReadCause::Form));
    }
    Ok(ItemWhat::Attribute {
        key: key.clone()?,
        value: Value::Words(words.clone()?),
    })
}

/// The attribute that an item's tokens make.
fn attribute_of(tokens: &[Token]) -> Result<ItemWhat, Fault>
    ensures { Gives result (attribute_of tokens.now) }
{
    match tokens {
        [Token::Word(key), Token::Colon, Token::Word(word)] => word_attribute(key, word),
        [Token::Word(key), Token::Colon, Token::Quoted(words)] => string_attribute(key, words),
        _ => Err(Fault::Cause(ReadCause::Form)),
    }
}

/// A number alone, as its span.
fn number_span(word: &Text) -> Result<Span, Fault>
    ensures { Gives result (span_of (Token.Word word.now ∷ [])) }
{
    let n = number(word)?;
    Ok(Span { first: n, last: n })
}

/// The range between two numbers, of which the first is not above the last.
fn range_span(first: &Text, last: &Text) -> Result<Span, Fault>
    ensures { Gives result (span_of (Token.Word first.now ∷ Token.Minus ∷ Token.Word last.now ∷ [])) }
{
    let first = number(first)?;
    let last = number(last)?;
    if first > last {
        return Err(Fault::Cause(ReadCause::Form));
    }
    Ok(Span { first, last })
}

/// The number or the range that the tokens make.
fn span_of(tokens: &[Token]) -> Result<Span, Fault>
    ensures { Gives result (span_of tokens.now) }
{
    match tokens {
        [Token::Word(word)] => number_span(word),
        [Token::Word(first), Token::Minus, Token::Word(last)] => range_span(first, last),
        _ => Err(Fault::Cause(ReadCause::Form)),
    }
}

/// The numbers and ranges that the parts make.
fn spans_of(alloc: Global, parts: &[&[Token]]) -> Result<Rows<Span>, Fault>
    ensures { Gives result (spans_of (map (λ part. part.now) parts.now)) }
{
    let mut spans = Vec::new(alloc);
    for part in parts {
        spans.push(span_of(part)?)?;
    }
    Ok(Rows::of(spans))
}

/// The numbers and ranges of what stands after `[`.
fn bracketed(alloc: Global, tokens: &[Token]) -> Result<Rows<Span>, Fault>
    ensures { Gives result (bracketed tokens.now) }
{
    match cut(Mark::EndList, tokens) {
        Some((inner, [])) => {
            let parts = parts(alloc, Mark::Comma, inner)?;
            spans_of(alloc, &parts)
        }
        _ => Err(Fault::Cause(ReadCause::Form)),
    }
}

/// A number alone, as its list.
fn one_span(alloc: Global, word: &Text) -> Result<Rows<Span>, Fault>
    ensures { Gives result (one_span word.now) }
{
    let n = number(word)?;
    let span = Span { first: n, last: n };
    Ok(Rows::of(vec![in alloc; span]?))
}

/// The pins of a wire.
fn pins_of(alloc: Global, tokens: &[Token]) -> Result<Rows<Span>, Fault>
    ensures { Gives result (pins_of tokens.now) }
{
    match tokens {
        [Token::Word(word)] => one_span(alloc, word),
        [Token::StartList, rest @ ..] => bracketed(alloc, rest),
        _ => Err(Fault::Cause(ReadCause::Form)),
    }
}

fn numbered_ends(alloc: Global, tokens: &[Token]) -> Result<Ends, Fault>
    ensures { Gives result (numbered_ends tokens.now) }
{
    let spans = pins_of(alloc, tokens)?;
    Ok(Ends::Spans(spans))
}

fn is_irq(word: &Text) -> bool
    ensures { result ≡ bytes_eq word.now (codes "IRQ") }
{
    word.as_str() == "IRQ"
}

/// The source of a wire, by what stands before `->`.
fn source_of(alloc: Global, tokens: &[Token]) -> Result<Ends, Fault>
    ensures { Gives result (source_of tokens.now) }
{
    match tokens {
        [] => Ok(Ends::Absent),
        [Token::Word(word)] if is_irq(word) => Ok(Ends::Irq),
        _ => numbered_ends(alloc, tokens),
    }
}

/// The wire to the pins of a peripheral.
fn wire_to(alloc: Global, front: &[Token], to: &Text, rest: &[Token]) -> Result<ItemWhat, Fault>
    ensures { Gives result (wire_of front.now (Token.Word to.now ∷ Token.At ∷ rest.now)) }
{
    let from = source_of(alloc, front)?;
    if !is_identifier(to.as_str()) {
        return Err(Fault::Cause(ReadCause::Form));
    }
    let pins = numbered_ends(alloc, rest)?;
    Ok(ItemWhat::Wire {
        from,
        to: to.clone()?,
        pins,
    })
}

/// The wire that the tokens before and after `->` make.
fn wire_of(alloc: Global, front: &[Token], back: &[Token]) -> Result<ItemWhat, Fault>
    ensures { Gives result (wire_of front.now back.now) }
{
    match back {
        [Token::Word(to), Token::At, rest @ ..] => wire_to(alloc, front, to, rest),
        _ => Err(Fault::Cause(ReadCause::Form)),
    }
}

/// The item that a line's tokens make.
pub(crate) fn item_of(alloc: Global, tokens: &[Token]) -> Result<ItemWhat, Fault>
    ensures { Gives result (item_of tokens.now) }
{
    match cut(Mark::Arrow, tokens) {
        Some((front, back)) => wire_of(alloc, front, back),
        None => attribute_of(tokens),
    }
}

/// The items that the parts make, of which empty ones make none.
pub(crate) fn items_of(alloc: Global, parts: &[&[Token]]) -> Result<Rows<ItemWhat>, Fault>
    ensures { Gives result (items_of (map (λ part. part.now) parts.now)) }
{
    let mut items = Vec::new(alloc);
    for part in parts {
        if !part.is_empty() {
            items.push(item_of(alloc, part)?)?;
        }
    }
    Ok(Rows::of(items))
}
