//! The word that an instruction's operands give: their texts by the signs between them, the value of
//! each by its kind, and the fields that the values go to.
ghost use Rattle.std.specs.Prelude.{◌≡◌, ◌<◌, IfSome};
ghost use Rattle.std.specs.Option.{option_map};
ghost use Rattle.rv_asm.specs.Places.{place_in};
ghost use Rattle.rv_asm.specs.Operands.{operand_and};
ghost use Rattle.rv_asm.specs.Inner.Fields.{Fit};
ghost use Rattle.rv_asm.specs.Inner.Parts.{first_of, place_parts, others_of};
ghost use Rattle.rv_asm.specs.Inner.Reading.{value_of, kinds_of, fields_of, AllFit, word_by_values, read};

use crate::encoder::{Fields, word_of};
use crate::fault::AsmCause;
use crate::numbers::number_of;
use crate::shapes::Shape;
use crate::targets::offset_in;
use crate::texts::{cut, register_of, trimmed};
use rv_decode::Op;
use std::collections::HashMap;

/// What an operand is.
#[derive(Clone, Copy)]
pub(crate) enum Kind {
    /// `x0` to `x31`.
    Register,
    /// A number, from minus the first to the second.
    Number(u32, u32),
    /// A label or an offset, which is even and from minus the first to the second.
    Target(u32, u32),
    /// No operand.
    Nothing,
}

/// The first operand, and what follows its comma.
#[tactic(auto, unfolding(crate::specs::Operands::operand_and))]
fn operand_and(text: &str) -> Option<(&str, &str)>
    ensures { option_map (λ x. (x.0.now, x.1.now)) result ≡ operand_and text.now }
{
    let (first, rest) = cut(text, ',')?;
    Some((trimmed(first), trimmed(rest)))
}

/// The register that stands first, and what follows its comma; 0 where there are no operands.
#[tactic(auto, unfolding(crate::specs::Operands::register_and))]
fn first_of(shape: Shape, text: &str) -> Option<(u8, &str)>
    ensures value { option_map (λ x. (x.0, x.1.now)) result ≡ first_of shape text.now }
    ensures fits { IfSome result (λ x. x.0 < 32) }
{
    if let Shape::Bare = shape {
        Some((0, text))
    } else if let Some((first, rest)) = operand_and(text)
        && let Some(register) = register_of(first)
    {
        Some((register, rest))
    } else {
        None
    }
}

/// A number, and the operand in parentheses after it.
fn place_parts(text: &str) -> Option<(&str, &str)>
    ensures { option_map (λ x. (x.0.now, x.1.now)) result ≡ place_parts text.now }
{
    if let Some((number, rest)) = cut(text, '(')
        && let Some((base, end)) = cut(rest, ')')
        && end.is_empty()
    {
        Some((number, base))
    } else {
        None
    }
}

/// The operands after the first register; where there is one alone or none, the last is empty.
fn others_of(shape: Shape, text: &str) -> Option<(&str, &str)>
    ensures { option_map (λ x. (x.0.now, x.1.now)) result ≡ others_of shape text.now }
{
    match shape {
        Shape::Upper | Shape::Jump | Shape::Bare => Some((text, "")),
        Shape::Load | Shape::Store => place_parts(text),
        _ => operand_and(text),
    }
}

/// What each operand after the first register is.
fn kinds_of(shape: Shape) -> (Kind, Kind)
    ensures { result ≡ kinds_of shape }
{
    match shape {
        Shape::Registers => (Kind::Register, Kind::Register),
        Shape::Immediate => (Kind::Register, Kind::Number(2048, 2047)),
        Shape::Shift => (Kind::Register, Kind::Number(0, 31)),
        Shape::Load | Shape::Store => (Kind::Number(2048, 2047), Kind::Register),
        Shape::Branch => (Kind::Register, Kind::Target(4096, 4095)),
        Shape::Upper => (Kind::Number(0, 0xFFFFF), Kind::Nothing),
        Shape::Jump => (Kind::Target(1 << 20, (1 << 20) - 1), Kind::Nothing),
        Shape::Csr => (Kind::Number(0, 4095), Kind::Register),
        Shape::CsrImmediate => (Kind::Number(0, 4095), Kind::Number(0, 31)),
        Shape::Bare => (Kind::Nothing, Kind::Nothing),
    }
}

/// The value of an operand, if it is in its field.
pub(crate) fn value_of(
    labels: &HashMap<&str, u32>,
    here: u32,
    kind: Kind,
    text: &str,
) -> Result<Option<u32>, AsmCause>
    ensures { result ≡ value_of (place_in labels.now) here kind text.now }
{
    match kind {
        Kind::Register => match register_of(text) {
            Some(register) => Ok(Some(u32::from(register))),
            None => Err(AsmCause::Form),
        },
        Kind::Number(least, greatest) => match number_of(text) {
            Some(number) => Ok(number.in_field(least, greatest)),
            None => Err(AsmCause::Form),
        },
        Kind::Target(least, greatest) => offset_in(labels, here, least, greatest, text),
        Kind::Nothing if text.is_empty() => Ok(Some(0)),
        Kind::Nothing => Err(AsmCause::Form),
    }
}

/// The fields of an instruction whose operands have these values.
fn fields_of(shape: Shape, a: u32, b: u32, c: u32) -> Fields
    requires { Fit (fields_of shape a b c) }
    ensures value { result ≡ fields_of shape a b c }
    ensures fits { Fit result }
{
    let (rd, rs1, rs2, imm) = match shape {
        Shape::Registers => (a, b, c, 0),
        Shape::Immediate | Shape::Shift => (a, b, 0, c),
        Shape::Load | Shape::Csr | Shape::CsrImmediate => (a, c, 0, b),
        Shape::Store => (0, c, a, b),
        Shape::Branch => (0, a, b, c),
        Shape::Upper => (a, 0, 0, b << 12),
        Shape::Jump => (a, 0, 0, b),
        Shape::Bare => (0, 0, 0, 0),
    };
    Fields { rd, rs1, rs2, imm }
}

/// The word of these values, if each is in its field.
fn word_by_values(op: Op, shape: Shape, a: u8, b: Option<u32>, c: Option<u32>) -> Option<u32>
    requires { AllFit shape a b c }
    ensures { result ≡ word_by_values op shape a b c }
{
    if let Some(b) = b
        && let Some(c) = c
    {
        Some(word_of(op, fields_of(shape, u32::from(a), b, c)))
    } else {
        None
    }
}

/// The word of an instruction's operands, if each value is in its field.
pub(crate) fn operands_word(
    labels: &HashMap<&str, u32>,
    here: u32,
    op: Op,
    text: &str,
    shape: Shape,
) -> Result<Option<u32>, AsmCause>
    ensures { result ≡ read (place_in labels.now) here op text.now shape }
{
    let Some((a, rest)) = first_of(shape, text) else {
        return Err(AsmCause::Form);
    };
    let Some((second, third)) = others_of(shape, rest) else {
        return Err(AsmCause::Form);
    };
    let (kind, last) = kinds_of(shape);
    let b = value_of(labels, here, kind, second)?;
    let c = value_of(labels, here, last, third)?;
    Ok(word_by_values(op, shape, a, b, c))
}
