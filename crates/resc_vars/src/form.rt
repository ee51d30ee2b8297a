//! The forms of a script's lines.
ghost use Rattle.std.specs.Prelude.{◌≡◌, IfOk, map};
ghost use Rattle.std.specs.List.{find, list_all};
ghost use Rattle.std.specs.Option.{option_map};
ghost use Rattle.resc_read.specs.Words as words;
ghost use Rattle.resc_vars.specs.Form as forms;

use lab_num::{NoMemory, Text};
use resc_read::{cut, is_blank, is_variable_name, path_of, text_of, variable_of, words_of};
use std::alloc::Global;

/// What `$name=VALUE` sets, or `$name?=VALUE` where the variable is unset.
#[derive(Drop)]
pub(crate) struct Assignment {
    pub(crate) name: Text,
    pub(crate) only_if_unset: bool,
    pub(crate) value: Text,
}

/// The form of a line.
#[derive(Drop)]
pub(crate) enum Form {
    /// A command, with variables that are to be replaced.
    Command,
    /// A `macro` line or an assignment that is not of its form.
    Malformed,
    Assign(Assignment),
    /// `macro name`, with `"""` at its end or not.
    Macro { name: Text, opened: bool },
}

fn first_ink(text: &str) -> Option<u8>
    ensures { result ≡ find forms.is_ink text.now }
{
    text.bytes().find(|&b| !is_blank(b))
}

/// Whether a line is blank or a comment.
pub(crate) fn is_passed(text: &str) -> bool
    ensures { result ≡ forms.is_passed text.now }
{
    match first_ink(text) {
        None => true,
        Some(first) => first == b':' || first == b'#',
    }
}

fn are_blanks(text: &str) -> bool
    ensures { result ≡ list_all words.is_blank text.now }
{
    text.bytes().all(|b| is_blank(b))
}

/// Whether two quotes and blanks follow the first quote of a line.
fn ends_fence(tail: &str) -> bool
    ensures { result ≡ forms.ends_fence tail.now }
{
    match tail.strip_prefix("\"\"") {
        None => false,
        Some(rest) => are_blanks(rest),
    }
}

/// What stands before the `"""` at the end of a line.
fn before_fence(text: &str) -> Option<&str>
    ensures { option_map (λ front. front.now) result ≡ forms.before_fence text.now }
{
    let (front, tail) = cut(text, '"')?;
    if ends_fence(tail) { Some(front) } else { None }
}

/// Whether a line is `"""` alone.
pub(crate) fn is_fence(text: &str) -> bool
    ensures { result ≡ forms.is_fence text.now }
{
    match before_fence(text) {
        None => false,
        Some(front) => are_blanks(front),
    }
}

/// The name in the words `macro name`.
fn macro_name<'a>(words: &[&'a str]) -> Option<&'a str>
    ensures { option_map (λ name. name.now) result
        ≡ forms.macro_name (map (λ word. word.now) words.now) }
{
    match words {
        [first, name] if *first == "macro" && is_variable_name(name) => Some(*name),
        _ => None,
    }
}

/// A `macro` line, with `"""` at its end or not.
fn named(alloc: Global, front: &str, opened: bool) -> Result<Form, NoMemory>
    ensures { IfOk result (λ form. form ≡ forms.named (words.words front.now) opened) }
{
    let words = words_of(alloc, front)?;
    match macro_name(&words) {
        None => Ok(Form::Malformed),
        Some(name) => {
            let name = Text::of(alloc, name)?;
            Ok(Form::Macro { name, opened })
        }
    }
}

fn macro_form(alloc: Global, text: &str) -> Result<Form, NoMemory>
    ensures { IfOk result (λ form. form ≡ forms.macro_form text.now) }
{
    match before_fence(text) {
        None => named(alloc, text, false),
        Some(front) => named(alloc, front, true),
    }
}

fn only_word<'a>(words: &[&'a str]) -> Option<&'a str>
    ensures { option_map (λ word. word.now) result
        ≡ forms.only_word (map (λ word. word.now) words.now) }
{
    match words {
        [word] => Some(*word),
        _ => None,
    }
}

/// What stands before the first `=` or `?=` of a line, whether it is `?=`, and what follows it.
fn sides(text: &str) -> Option<(&str, bool, &str)>
    ensures { option_map (λ parts. (parts.0.now, parts.1, parts.2.now)) result
        ≡ forms.sides text.now }
{
    let (front, right) = cut(text, '=')?;
    let Some((left, between)) = cut(front, '?') else {
        return Some((front, false, right));
    };
    if between.is_empty() {
        Some((left, true, right))
    } else {
        None
    }
}

/// The name in a text of one word, `$name`.
fn assigned_name(alloc: Global, left: &str) -> Result<Option<Text>, NoMemory>
    ensures { IfOk result (λ name. name ≡ forms.assigned_name left.now) }
{
    let words = words_of(alloc, left)?;
    let Some(word) = only_word(&words) else {
        return Ok(None);
    };
    match variable_of(word) {
        None => Ok(None),
        Some(name) => Ok(Some(Text::of(alloc, name)?)),
    }
}

fn is_value(word: &str) -> bool
    ensures { result ≡ forms.is_value word.now }
{
    text_of(word).is_some() || path_of(word).is_some()
}

/// The value in a text of one word.
fn assigned_value(alloc: Global, right: &str) -> Result<Option<Text>, NoMemory>
    ensures { IfOk result (λ value. value ≡ forms.assigned_value right.now) }
{
    let words = words_of(alloc, right)?;
    match only_word(&words) {
        Some(word) if is_value(word) => Ok(Some(Text::of(alloc, word)?)),
        _ => Ok(None),
    }
}

/// A line that sets a variable, or else a command.
fn assignment_form(alloc: Global, text: &str) -> Result<Form, NoMemory>
    ensures { IfOk result (λ form. form ≡ forms.assignment_form text.now) }
{
    let Some((left, only_if_unset, right)) = sides(text) else {
        return Ok(Form::Command);
    };
    let Some(name) = assigned_name(alloc, left)? else {
        return Ok(Form::Command);
    };
    match assigned_value(alloc, right)? {
        None => Ok(Form::Malformed),
        Some(value) => Ok(Form::Assign(Assignment {
            name,
            only_if_unset,
            value,
        })),
    }
}

/// Whether the first word of a line is `macro`.
fn begins_macro(alloc: Global, text: &str) -> Result<bool, NoMemory>
    ensures { IfOk result (λ is. is ≡ forms.begins_macro text.now) }
{
    let words = words_of(alloc, text)?;
    match words.first() {
        None => Ok(false),
        Some(first) => Ok(*first == "macro"),
    }
}

/// The form of a line that is not passed over.
#[tactic(auto, unfolding(crate::specs::Form::form_of))]
pub(crate) fn form_of(alloc: Global, text: &str) -> Result<Form, NoMemory>
    ensures { IfOk result (λ form. form ≡ forms.form_of text.now) }
{
    if begins_macro(alloc, text)? {
        macro_form(alloc, text)
    } else {
        assignment_form(alloc, text)
    }
}
