//! The word of a line, or the first of its faults in the order of `AsmCause`. `here` is the address
//! of the line's word.
ghost use Rattle.std.specs.Prelude.{◌≡◌};
ghost use Rattle.std.specs.Option.{option_map};
ghost use Rattle.rv_asm.specs.Places.{place_in};
ghost use Rattle.rv_asm.specs.Lines.{word_by, mnemonic_in, operands_in, label_of, line_word};
ghost use Rattle.rv_asm.specs.Lines.{gives_word};
ghost use Rattle.rv_asm.specs.Inner.Scan.{is_first, statement_word, word_from};

use crate::fault::AsmCause;
use crate::mnemonics::{Mnemonic, mnemonic_of};
use crate::operands::{Kind, operands_word, value_of};
use crate::shapes::shape_of;
use crate::targets::place_of;
use crate::texts::{code_of, cut, first_word, trimmed};
use lab_num::is_identifier;
use std::collections::HashMap;

/// The word that a mnemonic's operands give, if its number is in its field.
fn word_by(
    labels: &HashMap<&str, u32>,
    here: u32,
    text: &str,
    mnemonic: Mnemonic,
) -> Result<Option<u32>, AsmCause>
    ensures { result ≡ word_by (place_in labels.now) here text.now mnemonic }
{
    match mnemonic {
        Mnemonic::Word => value_of(labels, here, Kind::Number(1 << 31, u32::MAX), text),
        Mnemonic::Instruction(op) => operands_word(labels, here, op, text, shape_of(op)),
    }
}

/// The first word of a statement.
#[tactic(auto, unfolding(crate::specs::Lines::mnemonic_in))]
fn mnemonic_in(statement: &str) -> Result<Mnemonic, AsmCause>
    ensures { result ≡ mnemonic_in statement.now }
{
    if statement.is_empty() {
        return Err(AsmCause::Form);
    }
    let (name, _) = first_word(statement);
    mnemonic_of(name).ok_or(AsmCause::Name)
}

/// What follows the first word of a statement.
#[tactic(auto, unfolding(crate::specs::Lines::operands_in))]
fn operands_in(statement: &str) -> &str
    ensures { result.now ≡ operands_in statement.now }
{
    let (_, rest) = first_word(statement);
    trimmed(rest)
}

/// Whether the label's place is here.
fn is_given_here(labels: &HashMap<&str, u32>, here: u32, label: &str) -> bool
    ensures { result ≡ is_first (place_in labels.now) here label.now }
{
    match place_of(labels, label) {
        Some(there) => there == here,
        None => false,
    }
}

/// The word of a line with or without a label.
#[tactic(auto, unfolding(crate::specs::Lines::plain_word, crate::specs::Lines::labelled_word))]
fn statement_word(
    labels: &HashMap<&str, u32>,
    here: u32,
    label: Option<&str>,
    statement: &str,
) -> Result<u32, AsmCause>
    ensures { result ≡ statement_word (place_in labels.now) here
        (option_map (λ label. label.now) label.entry) statement.now }
{
    let mnemonic = mnemonic_in(statement)?;
    if let Some(label) = label
        && !is_identifier(label)
    {
        return Err(AsmCause::Form);
    }
    let word = word_by(labels, here, operands_in(statement), mnemonic)?;
    if let Some(label) = label
        && !is_given_here(labels, here, label)
    {
        return Err(AsmCause::Label);
    }
    word.ok_or(AsmCause::Range)
}

/// The label of a line.
pub(crate) fn label_of(line: &str) -> Option<&str>
    ensures { option_map (λ label. label.now) result ≡ label_of line.now }
{
    let (label, _) = cut(code_of(line), ':')?;
    Some(trimmed(label))
}

/// The word of a line that is not blank.
#[tactic(auto, unfolding(crate::specs::Lines::line_word))]
pub(crate) fn line_word(labels: &HashMap<&str, u32>, here: u32, line: &str) -> Result<u32, AsmCause>
    ensures { result ≡ word_from (place_in labels.now) here line.now }
{
    let code = code_of(line);
    match cut(code, ':') {
        None => statement_word(labels, here, None, trimmed(code)),
        Some((label, statement)) => {
            statement_word(labels, here, Some(trimmed(label)), trimmed(statement))
        }
    }
}

/// Whether a line has more than blanks and a comment.
#[tactic(auto, unfolding(crate::specs::Lines::gives_word))]
pub(crate) fn gives_word(line: &str) -> bool
    ensures { result ≡ gives_word line.now }
{
    !trimmed(code_of(line)).is_empty()
}
