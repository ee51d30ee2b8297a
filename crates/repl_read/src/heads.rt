//! The first line of an entry.
ghost use Rattle.std.specs.Prelude.{◌≡◌, [], ◌∷◌};
ghost use Rattle.std.specs.Option.{option_map};
ghost use Rattle.std.specs.Str.{bytes_eq};
ghost use Rattle.std.specs.Prelude.{codes};
ghost use Rattle.repl_read.specs.Forms.{number};
ghost use Rattle.repl_read.specs.Heads.{using_of, place_of, head_of};
ghost use Rattle.repl_read.specs.Inner.Gives.{Gives};
ghost use Rattle.lab_num.specs.Numeral.{number_of};

use crate::entry::{Head, Place};
use crate::fault::{Fault, ReadCause};
use crate::numbers::is_dotted_name;
use crate::tokens::Token;
use lab_num::{Text, is_identifier, number_of};

/// The number that a word must be.
pub(crate) fn number(word: &Text) -> Result<u32, Fault>
    ensures { Gives result (number (number_of word.now)) }
{
    match number_of(word.as_str()) {
        Some(n) => Ok(n),
        None => Err(Fault::Cause(ReadCause::Form)),
    }
}

fn is_using(word: &Text) -> bool
    ensures { result ≡ bytes_eq word.now (codes "using") }
{
    word.as_str() == "using"
}

/// The file that the line names, if it is `using "file"`.
pub(crate) fn using_of(tokens: &[Token]) -> Option<&Text>
    ensures { option_map (λ file. file.now) result ≡ using_of tokens.now }
{
    match tokens {
        [Token::Word(word), Token::Quoted(file)] if is_using(word) => Some(file),
        _ => None,
    }
}

fn is_bus(word: &Text) -> bool
    ensures { result ≡ bytes_eq word.now (codes "sysbus") }
{
    word.as_str() == "sysbus"
}

/// The registration at the bus, without an address.
fn bus_place(bus: &Text) -> Result<Place, Fault>
    ensures { Gives result (place_of (Token.At ∷ Token.Word bus.now ∷ [])) }
{
    if is_bus(bus) {
        Ok(Place::Bus)
    } else {
        Err(Fault::Cause(ReadCause::Form))
    }
}

/// The registration at the bus from an address on.
fn address_place(bus: &Text, base: &Text) -> Result<Place, Fault>
    ensures { Gives result (place_of (Token.At ∷ Token.Word bus.now ∷ Token.Word base.now ∷ [])) }
{
    if !is_bus(bus) {
        return Err(Fault::Cause(ReadCause::Form));
    }
    Ok(Place::Address(number(base)?))
}

/// The registration at the bus over a range of addresses.
fn range_place(bus: &Text, base: &Text, size: &Text) -> Result<Place, Fault>
    ensures { Gives result (place_of
        (Token.At ∷ Token.Word bus.now ∷ Token.Less ∷ Token.Word base.now ∷ Token.Comma ∷ Token.Plus
        ∷ Token.Word size.now ∷ Token.More ∷ [])) }
{
    if !is_bus(bus) {
        return Err(Fault::Cause(ReadCause::Form));
    }
    Ok(Place::Range {
        base: number(base)?,
        size: number(size)?,
    })
}

/// Where an entry is registered at the bus, by what stands after the bus.
fn place_on(bus: &Text, after: &[Token]) -> Result<Place, Fault>
    ensures { Gives result (place_of (Token.At ∷ Token.Word bus.now ∷ after.now)) }
{
    match after {
        [] => bus_place(bus),
        [Token::Word(base)] => address_place(bus, base),
        [
            Token::Less,
            Token::Word(base),
            Token::Comma,
            Token::Plus,
            Token::Word(size),
            Token::More,
        ] => range_place(bus, base, size),
        _ => Err(Fault::Cause(ReadCause::Form)),
    }
}

/// Where an entry is registered, by what stands after its type.
fn place_of(tokens: &[Token]) -> Result<Place, Fault>
    ensures { Gives result (place_of tokens.now) }
{
    match tokens {
        [] => Ok(Place::Absent),
        [Token::At, Token::Word(bus), after @ ..] => place_on(bus, after),
        _ => Err(Fault::Cause(ReadCause::Form)),
    }
}

/// The head of further items of a peripheral.
fn update_head(name: &Text) -> Result<Head, Fault>
    ensures { Gives result (head_of (Token.Word name.now ∷ Token.Colon ∷ [])) }
{
    if !is_identifier(name.as_str()) {
        return Err(Fault::Cause(ReadCause::Form));
    }
    Ok(Head::Update {
        name: name.clone()?,
    })
}

/// The head of a peripheral with its type, by what stands after it.
fn typed_head(name: &Text, kind: &Text, rest: &[Token]) -> Result<Head, Fault>
    ensures { Gives result
        (head_of (Token.Word name.now ∷ Token.Colon ∷ Token.Word kind.now ∷ rest.now)) }
{
    if !is_identifier(name.as_str()) || !is_dotted_name(kind.as_str()) {
        return Err(Fault::Cause(ReadCause::Form));
    }
    let at = place_of(rest)?;
    Ok(Head::Typed {
        name: name.clone()?,
        kind: kind.clone()?,
        at,
    })
}

/// The head that a line's tokens make.
pub(crate) fn head_of(tokens: &[Token]) -> Result<Head, Fault>
    ensures { Gives result (head_of tokens.now) }
{
    match tokens {
        [Token::Word(name), Token::Colon] => update_head(name),
        [
            Token::Word(name),
            Token::Colon,
            Token::Word(kind),
            rest @ ..,
        ] => typed_head(name, kind, rest),
        _ => Err(Fault::Cause(ReadCause::Form)),
    }
}
