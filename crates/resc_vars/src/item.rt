//! What stands in the lines of a body.
ghost use Rattle.std.specs.Prelude.{◌≡◌, ◌+◌, ◌≤◌, ◌^◌, length, position, IfOk, IfNone, IfSome, None, Some};
ghost use Rattle.std.specs.String.{string_bytes};
ghost use Rattle.resc_vars.specs.Bodies.{source_of};
ghost use Rattle.resc_vars.specs.Items as items;
ghost use Rattle.resc_vars.specs.Inner.Rest.{Begins, EndsWith, First, IsItem, IsMacro, Skips, lines_of};
ghost use Rattle.resc_vars.specs.Numbered.{numbers_fit};

use crate::form::{Assignment, Form, form_of, is_fence, is_passed};
use crate::lines::{Rest, TextLines, lines_at};
use lab_num::{NoMemory, Text};
use std::alloc::Global;
use std::rc::Rc;

/// A line and its number, counted from 1 in its file.
#[derive(Drop)]
pub(crate) struct Line {
    pub(crate) number: u32,
    pub(crate) text: Text,
}

/// The lines of a file, or those of a macro's body.
#[derive(Drop)]
pub(crate) struct SourceLines {
    pub(crate) file: Text,
    pub(crate) lines: TextLines,
}

/// What a line asks for, or a macro's lines together. Each counts as a command.
#[derive(Drop)]
pub(crate) enum Item {
    /// A command, with variables that are to be replaced.
    Command(Line),
    /// A `macro` line or an assignment that is not of its form, which stays as it is.
    Malformed(Line),
    Assign {
        line: u32,
        assignment: Assignment,
    },
    Define {
        line: u32,
        name: Text,
        lines: TextLines,
    },
    /// A macro at this line whose body does not end.
    Unclosed(u32),
}

/// A line with its number.
fn line_of(alloc: Global, number: u32, text: &str) -> Result<Line, NoMemory>
    ensures { IfOk result (λ made. made ≡ record { number = number; text = text.now }) }
{
    Ok(Line {
        number,
        text: Text::of(alloc, text)?,
    })
}

/// The same lines of the same file.
pub(crate) fn copy_source(alloc: Global, source: &SourceLines) -> Result<SourceLines, NoMemory>
    ensures { IfOk result (λ made. made ≡ source.now) }
{
    Ok(SourceLines {
        file: Text::of(alloc, source.file.as_str())?,
        lines: source.lines.share()?,
    })
}

/// A file of this name with this text.
pub(crate) fn source_of(alloc: Global, name: &str, text: String) -> Result<SourceLines, NoMemory>
    requires { length (string_bytes text) ≤ 2 ^ 24 }
    ensures { IfOk result (λ made. made ≡ source_of name.now (string_bytes text)) }
{
    let file = Text::of(alloc, name)?;
    let lines = TextLines::of(alloc, text)?;
    Ok(SourceLines { file, lines })
}

/// How many lines stand before the first `"""`, and what follows that.
fn before_fence(body: Rest<'_>) -> Option<(usize, Rest<'_>)>
    requires { numbers_fit body.number body.text.now }
    ensures none { IfNone result (position items.is_fence_line (lines_of body.entry) ≡ None) }
    ensures some { IfSome result (λ found. position items.is_fence_line (lines_of body.entry) ≡ Some found.0) }
    ensures after { IfSome result (λ found. Skips (found.0 + 1) body.entry found.1) }
{
    let mut rest = body;
    let mut n = 0;
    loop {
        let (line, later) = rest.split_first()?;
        if is_fence(line) {
            return Some((n, later));
        }
        n += 1;
        rest = later;
    }
}

/// The body of a macro and what follows it, if a body begins after the `macro` line.
fn begun(opened: bool, rest: Rest<'_>) -> Option<Rest<'_>>
    requires { numbers_fit rest.number rest.text.now }
    ensures { Begins (items.begin opened (lines_of rest.entry)) rest.entry result }
{
    if opened {
        return Some(rest);
    }
    match rest.split_first() {
        None => Some(rest),
        Some((line, body)) if is_fence(line) => Some(body),
        Some(_) => None,
    }
}

/// The macro whose body begins there, and what follows it.
fn macro_item<'a>(
    text: &Rc<String>,
    number: u32,
    name: Text,
    body: Rest<'a>,
) -> Result<(Item, Rest<'a>), NoMemory>
    requires ends { EndsWith (string_bytes text.now.value) body.text.now }
    requires fit { numbers_fit body.number body.text.now }
    ensures { IfOk result (λ found. IsMacro number name body.entry found) }
{
    match before_fence(body) {
        None => {
            let none = Rest {
                text: body.text,
                number: body.number,
                most: 0,
            };
            Ok((Item::Unclosed(number), none))
        }
        Some((n, rest)) => {
            let lines = lines_at(text, body.text, body.number, n)?;
            Ok((
                Item::Define {
                    line: number,
                    name,
                    lines,
                },
                rest,
            ))
        }
    }
}

/// The item at a line, and what follows it.
#[tactic(auto, unfolding(crate::specs::Items::item_at))]
fn item_at<'a>(
    alloc: Global,
    text: &Rc<String>,
    number: u32,
    line: &str,
    rest: Rest<'a>,
) -> Result<(Item, Rest<'a>), NoMemory>
    requires ends { EndsWith (string_bytes text.now.value) rest.text.now }
    requires fit { numbers_fit rest.number rest.text.now }
    ensures { IfOk result (λ found. IsItem (record { number = number; text = line.now }) rest.entry found) }
{
    match form_of(alloc, line)? {
        Form::Command => Ok((Item::Command(line_of(alloc, number, line)?), rest)),
        Form::Malformed => Ok((Item::Malformed(line_of(alloc, number, line)?), rest)),
        Form::Assign(assignment) => {
            let line = number;
            Ok((Item::Assign { line, assignment }, rest))
        }
        Form::Macro { name, opened } => match begun(opened, rest) {
            None => Ok((Item::Malformed(line_of(alloc, number, line)?), rest)),
            Some(body) => macro_item(text, number, name, body),
        },
    }
}

/// The first item of lines at the end of a text, and what follows it.
pub(crate) fn first_item<'a>(
    alloc: Global,
    text: &Rc<String>,
    lines: Rest<'a>,
) -> Result<Option<(Item, Rest<'a>)>, NoMemory>
    requires ends { EndsWith (string_bytes text.now.value) lines.text.now }
    requires fit { numbers_fit lines.number lines.text.now }
    ensures { IfOk result (λ found. First lines.entry found) }
{
    let mut rest = lines;
    loop {
        let Some((line, later)) = rest.split_first() else {
            return Ok(None);
        };
        if !is_passed(line) {
            return Ok(Some(item_at(alloc, text, rest.number, line, later)?));
        }
        rest = later;
    }
}
