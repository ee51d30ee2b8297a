//! Lines with their variables replaced.
ghost use Rattle.std.specs.Prelude.{◌≡◌, nat_eq, IfOk, OnOk};
ghost use Rattle.std.specs.Cmp.Lexicographic.{pointwise};
ghost use Rattle.std.specs.Option.{option_map};
ghost use Rattle.std.specs.String.{string_bytes};
ghost use Rattle.indexmap.specs.IndexMap.{insert_entry};
ghost use Rattle.resc_read.specs.Words as words;
ghost use Rattle.resc_vars.specs.Inner.Steps.{SetsVariable};
ghost use Rattle.resc_vars.specs.Variables.{stands_for, replaced, names_macro, after_name, command_text, with_value};

use crate::form::Assignment;
use indexmap::IndexMap;
use lab_num::{NoMemory, Text};
use resc_read::{cut, piece_len, variable_of, words_of};
use std::alloc::Global;

/// The variables by name.
pub(crate) type Variables = IndexMap<Text, Text>;

/// Keeps a value under a name, in place of the one that is there.
pub(crate) fn put<V: Drop>(
    map: &mut IndexMap<Text, V>,
    name: Text,
    value: V,
) -> Result<(), NoMemory>
    ensures { OnOk result (map.new.entries ≡ insert_entry (pointwise nat_eq) map.old.entries name value) }
{
    map.insert(name, value)?;
    Ok(())
}

/// What stands for a word: the value of a variable that it names, or itself.
fn stands_for<'a>(
    alloc: Global,
    variables: &'a Variables,
    word: &'a str,
) -> Result<Option<&'a str>, NoMemory>
    ensures { IfOk result (λ found. option_map (λ text. text.now) found
        ≡ stands_for variables.now.entries word.now) }
{
    let Some(name) = variable_of(word) else {
        return Ok(Some(word));
    };
    match variables.get(name) {
        None => Ok(None),
        Some(value) => Ok(Some(value.as_str())),
    }
}

/// A copy of what stands for a word.
fn value_for(alloc: Global, variables: &Variables, word: &str) -> Result<Option<Text>, NoMemory>
    ensures { IfOk result (λ found. found ≡ stands_for variables.now.entries word.now) }
{
    match stands_for(alloc, variables, word)? {
        None => Ok(None),
        Some(value) => Ok(Some(Text::of(alloc, value)?)),
    }
}

/// Gives a variable a value, unless it is to be set only if it is unset, and has one.
fn give(
    variables: &mut Variables,
    name: Text,
    only_if_unset: bool,
    value: Text,
) -> Result<(), NoMemory>
    ensures { OnOk result (variables.new.entries ≡ with_value variables.old.entries name only_if_unset value) }
{
    if !only_if_unset || variables.get(&name).is_none() {
        return put(variables, name, value);
    }
    Ok(())
}

/// Sets a variable, unless its value is a variable that is unset.
pub(crate) fn set_variable(
    alloc: Global,
    variables: &mut Variables,
    assignment: Assignment,
) -> Result<bool, NoMemory>
    ensures { IfOk result (λ set. SetsVariable assignment variables.old.entries set variables.new.entries) }
{
    match value_for(alloc, variables, assignment.value.as_str())? {
        None => Ok(false),
        Some(value) => {
            give(variables, assignment.name, assignment.only_if_unset, value)?;
            Ok(true)
        }
    }
}

/// The line with its variables replaced, if each is set.
fn replaced(alloc: Global, variables: &Variables, line: &str) -> Result<Option<String>, NoMemory>
    ensures { IfOk result (λ made. option_map string_bytes made
        ≡ replaced variables.now.entries line.now) }
{
    let mut made = String::new(alloc);
    let mut rest = line;
    'pieces: loop {
        let n = piece_len(rest.as_bytes());
        let (piece, _) = rest.split_at(n);
        match stands_for(alloc, variables, piece) {
            Err(error) => return Err(error),
            Ok(None) => return Ok(None),
            Ok(Some(text)) => made.push_str(text)?,
        }
        if n == rest.len() {
            return Ok(Some(made));
        }
        made.push(char::from(rest.as_bytes()[n]))?;
        rest = &rest[n + 1..];
    }
}

/// Whether a line begins with `runMacro $name`.
fn names_macro(alloc: Global, line: &str) -> Result<bool, NoMemory>
    ensures { IfOk result (λ is. is ≡ names_macro (words.words line.now)) }
{
    let words = words_of(alloc, line)?;
    match words.as_slice() {
        [first, second, ..] => Ok(*first == "runMacro" && variable_of(second).is_some()),
        _ => Ok(false),
    }
}

/// A line with its variables replaced after its first `$`.
fn after_name(alloc: Global, variables: &Variables, line: &str) -> Result<Option<Text>, NoMemory>
    ensures { IfOk result (λ made. made
        ≡ after_name variables.now.entries line.now) }
{
    let Some((front, rest)) = cut(line, '$') else {
        return Ok(Some(Text::of(alloc, line)?));
    };
    let Some(more) = replaced(alloc, variables, rest)? else {
        return Ok(None);
    };
    let mut made = String::from_str(alloc, front)?;
    made.push('$')?;
    made.push_str(more.as_str())?;
    Ok(Some(Text::of(alloc, made.as_str())?))
}

/// The text of a command, with its variables replaced.
#[tactic(auto, unfolding(crate::specs::Variables::command_text))]
pub(crate) fn command_text(
    alloc: Global,
    variables: &Variables,
    line: &str,
) -> Result<Option<Text>, NoMemory>
    ensures { IfOk result (λ made. made
        ≡ command_text variables.now.entries line.now) }
{
    if names_macro(alloc, line)? {
        return after_name(alloc, variables, line);
    }
    let Some(text) = replaced(alloc, variables, line)? else {
        return Ok(None);
    };
    Ok(Some(Text::of(alloc, text.as_str())?))
}
