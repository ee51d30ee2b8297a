//! What one line says, by where it stands.
ghost use Rattle.std.specs.Prelude.{◌≡◌};
ghost use Rattle.std.specs.List.{list_any};
ghost use Rattle.repl_read.specs.Inner.Gives.{Gives};
ghost use Rattle.repl_read.specs.Lines.{has_close, parted_items, list_of, within_line, item_line, after_brace};
ghost use Rattle.repl_read.specs.Lines.{plain_head, braced_head, head_line, some_line, said_of};

use crate::cuts::{Mark, cut, is_mark, parts};
use crate::entry::{Head, ItemWhat};
use crate::fault::{Fault, ReadCause};
use crate::features::{in_head, in_item, in_list};
use crate::heads::{head_of, using_of};
use crate::items::{item_of, items_of};
use crate::tokens::{Token, TokenLine};
use lab_num::Rows;
use std::alloc::Global;

/// Where a line stands.
#[derive(Clone, Copy)]
pub(crate) enum Stand {
    /// After no head to which items may come.
    Apart,
    /// Behind a head to which indented lines belong.
    Under,
    /// Between braces.
    Within,
}

/// What a line says, and where the next one stands.
#[derive(Drop)]
pub(crate) struct Said {
    pub(crate) head: Option<Head>,
    pub(crate) items: Rows<ItemWhat>,
    pub(crate) next: Stand,
}

/// The items of a line between braces, and whether the braces end on it.
#[derive(Drop)]
struct Listed {
    items: Rows<ItemWhat>,
    ended: bool,
}

fn has_close(line: &TokenLine) -> bool
    ensures { result ≡ has_close line.now }
{
    line.tokens
        .items()
        .iter()
        .any(|token| is_mark(Mark::CloseBrace, token))
}

/// Whether some line has a `}`.
fn has_later_close(lines: &[TokenLine]) -> bool
    ensures { result ≡ list_any has_close lines.now }
{
    lines.iter().any(has_close)
}

/// The items that are parted by `;`.
fn parted_items(alloc: Global, tokens: &[Token], ended: bool) -> Result<Listed, Fault>
    ensures { Gives result (parted_items tokens.now ended) }
{
    let parts = parts(alloc, Mark::Semicolon, tokens)?;
    let items = items_of(alloc, &parts)?;
    Ok(Listed { items, ended })
}

/// The items of what stands after `{`, or on a further line between braces.
fn list_of(alloc: Global, tokens: &[Token]) -> Result<Listed, Fault>
    ensures { Gives result (list_of tokens.now) }
{
    match cut(Mark::CloseBrace, tokens) {
        None => parted_items(alloc, tokens, false),
        Some((inner, [])) => parted_items(alloc, inner, true),
        Some(_) => Err(Fault::Cause(ReadCause::Form)),
    }
}

/// A further line between braces.
fn within_line(alloc: Global, tokens: &[Token]) -> Result<Said, Fault>
    ensures { Gives result (within_line tokens.now) }
{
    if in_list(tokens) {
        return Err(Fault::Cause(ReadCause::Feature));
    }
    let list = list_of(alloc, tokens)?;
    let next = if list.ended {
        Stand::Apart
    } else {
        Stand::Within
    };
    Ok(Said {
        head: None,
        items: list.items,
        next,
    })
}

/// An indented line.
fn item_line(alloc: Global, stand: Stand, tokens: &[Token]) -> Result<Said, Fault>
    ensures { Gives result (item_line stand tokens.now) }
{
    if in_item(tokens) {
        return Err(Fault::Cause(ReadCause::Feature));
    }
    if !matches!(stand, Stand::Under) {
        return Err(Fault::Cause(ReadCause::Form));
    }
    let item = item_of(alloc, tokens)?;
    Ok(Said {
        head: None,
        items: Rows::of(vec![in alloc; item]?),
        next: Stand::Under,
    })
}

/// Where the lines after a `{` stand.
fn after_brace(ended: bool, later: &[TokenLine]) -> Result<Stand, Fault>
    ensures { Gives result (after_brace ended (list_any has_close later.now)) }
{
    if ended {
        return Ok(Stand::Apart);
    }
    if has_later_close(later) {
        Ok(Stand::Within)
    } else {
        Err(Fault::Cause(ReadCause::Form))
    }
}

/// A head alone.
fn plain_head(alloc: Global, tokens: &[Token]) -> Result<Said, Fault>
    ensures { Gives result (plain_head tokens.now) }
{
    if in_head(tokens) {
        return Err(Fault::Cause(ReadCause::Feature));
    }
    let head = head_of(tokens)?;
    Ok(Said {
        head: Some(head),
        items: Rows::of(Vec::new(alloc)),
        next: Stand::Under,
    })
}

/// A head with `{` and items.
fn braced_head(
    alloc: Global,
    later: &[TokenLine],
    front: &[Token],
    rest: &[Token],
) -> Result<Said, Fault>
    ensures { Gives result (braced_head (list_any has_close later.now) front.now rest.now) }
{
    if in_head(front) || in_list(rest) {
        return Err(Fault::Cause(ReadCause::Feature));
    }
    let head = head_of(front)?;
    let list = list_of(alloc, rest)?;
    let next = after_brace(list.ended, later)?;
    Ok(Said {
        head: Some(head),
        items: list.items,
        next,
    })
}

/// A line that is not indented.
fn head_line(alloc: Global, later: &[TokenLine], tokens: &[Token]) -> Result<Said, Fault>
    ensures { Gives result (head_line (list_any has_close later.now) tokens.now) }
{
    if let Some(file) = using_of(tokens) {
        let head = Head::Using(file.clone()?);
        return Ok(Said {
            head: Some(head),
            items: Rows::of(Vec::new(alloc)),
            next: Stand::Apart,
        });
    }
    match cut(Mark::OpenBrace, tokens) {
        None => plain_head(alloc, tokens),
        Some((front, rest)) => braced_head(alloc, later, front, rest),
    }
}

/// A line that is not blank.
fn some_line(
    alloc: Global,
    stand: Stand,
    indented: bool,
    later: &[TokenLine],
    tokens: &[Token],
) -> Result<Said, Fault>
    ensures { Gives result (some_line stand indented (list_any has_close later.now) tokens.now) }
{
    match stand {
        Stand::Within => within_line(alloc, tokens),
        _ if indented => item_line(alloc, stand, tokens),
        _ => head_line(alloc, later, tokens),
    }
}

/// What a line says that stands there, before the lines `later`.
pub(crate) fn said_of(
    alloc: Global,
    stand: Stand,
    line: &TokenLine,
    later: &[TokenLine],
) -> Result<Said, Fault>
    ensures { Gives result
        (said_of stand line.now.indented (list_any has_close later.now) line.now.tokens) }
{
    let tokens = line.tokens.items();
    if tokens.is_empty() {
        return Ok(Said {
            head: None,
            items: Rows::of(Vec::new(alloc)),
            next: stand,
        });
    }
    some_line(alloc, stand, line.indented, later, tokens)
}
