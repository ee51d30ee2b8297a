//! Lines of a text, which stay where they are in it.
ghost use Rattle.std.specs.Prelude.{◌≡◌, ◌∷◌, ◌≤◌, ◌<◌, ◌^◌, [], IfOk, IfNone, IfSome, drop, length};
ghost use Rattle.std.specs.Str.{IsCharBoundary};
ghost use Rattle.std.specs.Str.Lines.{lines, strip_carriage_return};
ghost use Rattle.std.specs.String.{string_bytes};
ghost use Rattle.resc_vars.specs.Inner.Rest.{EndsWith, Follows, lines_of};
ghost use Rattle.resc_vars.specs.Inner.Steps.{Takes};
ghost use Rattle.resc_vars.specs.Items.{items};
ghost use Rattle.resc_vars.specs.Numbered.{numbered, numbers_fit, shown};

use crate::item::{Item, first_item};
use lab_num::NoMemory;
use resc_read::cut;
use std::alloc::Global;
use std::marker::Model;
use std::rc::Rc;

/// Where lines begin in their text.
#[derive(Clone, Copy)]
struct Extent {
    at: usize,
    /// The number of the first.
    number: u32,
    /// How many they are at most.
    most: usize,
}

/// Lines that stand together in a text. Those of a macro share the text with their file.
#[derive(Drop)]
pub(crate) struct TextLines {
    text: Rc<String>,
    extent: Extent,
}

impl Model for TextLines {
    ghost use Rattle.std.specs.Prelude.{List, drop};
    ghost use Rattle.std.specs.Str.{IsCharBoundary};
    ghost use Rattle.std.specs.String.{string_bytes};
    ghost use Rattle.resc_vars.specs.declared.item.Line.{Line};
    ghost use Rattle.resc_vars.specs.Numbered.{shown, numbers_fit};

    ghost Value = { List Line };

    ghost view = { λ l. shown l.extent.most l.extent.number (drop l.extent.at (string_bytes l.text.value)) };

    ghost invariant = { λ l. IsCharBoundary (string_bytes l.text.value) l.extent.at
        × numbers_fit l.extent.number (drop l.extent.at (string_bytes l.text.value)) };
}

/// The first of some lines, and those that follow.
#[derive(Clone, Copy)]
pub(crate) struct Rest<'a> {
    pub(crate) text: &'a str,
    /// The number of the first line.
    pub(crate) number: u32,
    /// How many lines they are at most.
    pub(crate) most: usize,
}

/// A line without the carriage return at its end.
fn without_return(line: &str) -> &str
    ensures { result.now ≡ strip_carriage_return line.now }
{
    if line.ends_with('\r') {
        &line[..line.len() - 1]
    } else {
        line
    }
}

/// The first line of a text, and the text after it.
fn first_line(text: &str) -> Option<(&str, &str)>
    ensures none { IfNone result (lines text.now ≡ []) }
    ensures some { IfSome result (λ x. lines text.now ≡ x.0.now ∷ lines x.1.now) }
    ensures shorter { IfSome result (λ x. length x.1.now < length text.now) }
    ensures ends { IfSome result (λ x. EndsWith text.now x.1.now) }
{
    match cut(text, '\n') {
        Some((line, rest)) => Some((without_return(line), rest)),
        None if text.is_empty() => None,
        None => Some((text, "")),
    }
}

impl<'a> Rest<'a> {
    /// The text of the first line, and what follows it.
    pub(crate) fn split_first(self) -> Option<(&'a str, Rest<'a>)>
        requires { numbers_fit self.number self.text.now }
        ensures none { IfNone result (lines_of self.entry ≡ []) }
        ensures some { IfSome result (λ x. lines_of self.entry
            ≡ record { number = self.entry.number; text = x.0.now } ∷ lines_of x.1) }
        ensures follows { IfSome result (λ x. Follows self.entry x.1) }
        ensures shorter { IfSome result (λ x. length x.1.text.now < length self.entry.text.now) }
    {
        if self.most == 0 {
            return None;
        }
        let (line, text) = first_line(self.text)?;
        Some((
            line,
            Rest {
                text,
                number: self.number + 1,
                most: self.most - 1,
            },
        ))
    }
}

/// The place where the end of a text begins.
fn extent_of(text: &str, end: &str, number: u32, most: usize) -> Extent
    requires { EndsWith text.now end.now }
    ensures boundary { IsCharBoundary text.now result.at }
    ensures end { drop result.at text.now ≡ end.now }
    ensures number { result.number ≡ number }
    ensures most { result.most ≡ most }
{
    Extent {
        at: text.len() - end.len(),
        number,
        most,
    }
}

/// Lines at the end of a text: at most so many of these, which are numbered from `number` on.
pub(crate) fn lines_at(
    text: &Rc<String>,
    end: &str,
    number: u32,
    most: usize,
) -> Result<TextLines, NoMemory>
    requires ends { EndsWith (string_bytes text.now.value) end.now }
    requires fit { numbers_fit number end.now }
    ensures { IfOk result (λ made. made ≡ shown most number end.now) }
{
    let extent = extent_of(text.as_str(), end, number, most);
    Ok(TextLines {
        text: text.clone()?,
        extent,
    })
}

impl TextLines {
    /// All lines of a text.
    pub(crate) fn of(alloc: Global, text: String) -> Result<TextLines, NoMemory>
        requires { length (string_bytes text) ≤ 2 ^ 24 }
        ensures { IfOk result (λ made. made ≡ numbered 1 (lines (string_bytes text))) }
    {
        let most = text.as_str().len() + 1;
        Ok(TextLines {
            text: Rc::new(alloc, text)?,
            extent: Extent {
                at: 0,
                number: 1,
                most,
            },
        })
    }

    /// The same lines.
    pub(crate) fn share(&self) -> Result<TextLines, NoMemory>
        ensures { IfOk result (λ made. made ≡ self.now) }
    {
        Ok(TextLines {
            text: self.text.clone()?,
            extent: self.extent,
        })
    }

    /// Takes the next item, with the lines that are passed over before it.
    pub(crate) fn take_item(&mut self, alloc: Global) -> Result<Option<Item>, NoMemory>
        ensures { IfOk result (λ item. Takes (items 0 self.old) item (items 0 self.new)) }
    {
        let Extent { at, number, most } = self.extent;
        let text = &self.text.as_str()[at..];
        match first_item(alloc, &self.text, Rest { text, number, most })? {
            None => Ok(None),
            Some((item, rest)) => {
                self.extent = extent_of(self.text.as_str(), rest.text, rest.number, rest.most);
                Ok(Some(item))
            }
        }
    }
}
