//! From a text to its entries.
ghost use Rattle.std.specs.Prelude.{◌≡◌, ◌≤◌, ◌<◌, ◌+◌, ◌^◌, ◌++◌, length, drop, OnOk, IfOk, IfErr};
ghost use Rattle.repl_read.specs.Inner.Entries.{fault_at, TellsPart, said_from, opened, closed, done_by, begun_by};
ghost use Rattle.repl_read.specs.Inner.Entries.{extended_by};
ghost use Rattle.repl_read.specs.Platform.{plat_cause, items_at, entries_of, Tells, Reads};

use crate::comments::without_comments;
use crate::entry::{Entry, Head, Item, ItemWhat};
use crate::fault::{Fault, PlatCause, PlatFault, ReadCause};
use crate::lines::{Said, Stand, said_of};
use crate::tokens::{TokenLine, token_lines};
use lab_num::Rows;
use std::alloc::Global;

/// An entry to which items may still come.
#[derive(Drop)]
struct Begun {
    line: u32,
    head: Head,
    items: Vec<Item>,
}

fn plat_cause(cause: ReadCause) -> PlatCause
    ensures { result ≡ plat_cause cause }
{
    match cause {
        ReadCause::Form => PlatCause::Form,
        ReadCause::Feature => PlatCause::Feature,
    }
}

/// A fault of line `n`.
fn fault_at(n: u32, fault: Fault) -> PlatFault
    ensures { result ≡ fault_at n fault }
{
    match fault {
        Fault::Cause(cause) => PlatFault::At {
            file: 0,
            line: n,
            cause: plat_cause(cause),
        },
        Fault::Memory => PlatFault::Memory,
    }
}

/// What the line at `i` says.
fn said_at(alloc: Global, stand: Stand, lines: &[TokenLine], i: usize) -> Result<Said, PlatFault>
    requires few { length lines.now ≤ 2 ^ 24 + 1 }
    requires inside { i < length lines.now }
    ensures { TellsPart result (said_from stand (i + 1) (drop i lines.now)) }
{
    match said_of(alloc, stand, &lines[i], &lines[i + 1..]) {
        Ok(said) => Ok(said),
        Err(fault) => Err(fault_at(i as u32 + 1, fault)),
    }
}

/// Puts the entry that was begun after the others.
fn close(entries: &mut Vec<Entry>, begun: Option<Begun>) -> Result<(), PlatFault>
    ensures ok { OnOk result (entries.new.items ≡ entries.old.items ++ closed begun) }
    ensures err { IfErr result (λ fault. fault ≡ PlatFault.Memory) }
{
    if let Some(Begun { line, head, items }) = begun {
        let items = Rows::of(items);
        entries.push(Entry {
            file: 0,
            line,
            head,
            items,
        })?;
    }
    Ok(())
}

/// The entry to which items come after this line, which may begin it.
fn begin(
    alloc: Global,
    entries: &mut Vec<Entry>,
    begun: Option<Begun>,
    n: u32,
    head: Option<Head>,
) -> Result<Option<Begun>, PlatFault>
    ensures done { OnOk result (entries.new.items ≡ done_by head entries.old.items (opened begun)) }
    ensures begun { IfOk result (λ after. opened after ≡ begun_by n head (opened begun)) }
    ensures err { IfErr result (λ fault. fault ≡ PlatFault.Memory) }
{
    let Some(head) = head else {
        return Ok(begun);
    };
    close(entries, begun)?;
    Ok(Some(Begun {
        line: n,
        head,
        items: Vec::new(alloc),
    }))
}

/// Puts items of line `n` after the others.
fn add_items(items: &mut Vec<Item>, n: u32, whats: Rows<ItemWhat>) -> Result<(), PlatFault>
    ensures ok { OnOk result (items.new.items ≡ items.old.items ++ items_at n whats) }
    ensures err { IfErr result (λ fault. fault ≡ PlatFault.Memory) }
{
    for what in whats.into_items() {
        items.push(Item { line: n, what })?;
    }
    Ok(())
}

/// The entry that was begun, with items of line `n`.
fn extended(begun: Option<Begun>, n: u32, whats: Rows<ItemWhat>) -> Result<Option<Begun>, PlatFault>
    ensures ok { IfOk result
        (λ after. opened after ≡ extended_by (items_at n whats) (opened begun)) }
    ensures err { IfErr result (λ fault. fault ≡ PlatFault.Memory) }
{
    let Some(
        Begun {
            line,
            head,
            mut items,
        },
    ) = begun
    else {
        return Ok(None);
    };
    add_items(&mut items, n, whats)?;
    Ok(Some(Begun { line, head, items }))
}

/// The entry to which items come after line `n`, with the items of that line.
fn put(
    alloc: Global,
    entries: &mut Vec<Entry>,
    begun: Option<Begun>,
    n: u32,
    head: Option<Head>,
    whats: Rows<ItemWhat>,
) -> Result<Option<Begun>, PlatFault>
    ensures done { OnOk result (entries.new.items ≡ done_by head entries.old.items (opened begun)) }
    ensures begun { IfOk result
        (λ after. opened after ≡ extended_by (items_at n whats) (begun_by n head (opened begun))) }
    ensures err { IfErr result (λ fault. fault ≡ PlatFault.Memory) }
{
    let begun = begin(alloc, entries, begun, n, head)?;
    extended(begun, n, whats)
}

/// The entries of a text's lines.
fn entries_of(alloc: Global, lines: &[TokenLine]) -> Result<Vec<Entry>, PlatFault>
    requires { length lines.now ≤ 2 ^ 24 + 1 }
    ensures { Tells result (entries_of lines.now) }
{
    let mut entries = Vec::new(alloc);
    let mut begun = None;
    let mut stand = Stand::Apart;
    for i in 0..lines.len() {
        let n = i as u32 + 1;
        let Said { head, items, next } = said_at(alloc, stand, lines, i)?;
        begun = put(alloc, &mut entries, begun, n, head, items)?;
        stand = next;
    }
    close(&mut entries, begun)?;
    Ok(entries)
}

/// The entries that a platform text says, in its order, each with the file number 0.
///
/// The forms are a part of Renode's platform description format. A `using` line becomes an entry,
/// and its file is not read. `//` to the line's end and `/* */` are blanks outside strings. A line
/// that is not indented is `using "file"` or a head: `name:`, `name: Type`, `name: Type @ sysbus`,
/// `name: Type @ sysbus ADDR` or `name: Type @ sysbus <ADDR, +SIZE>`. The items of a head are the
/// indented lines after it, or stand between `{` on its line and `}`, parted by `;` or line ends:
/// attributes `key: value`, and wires `SRC -> dest@DST`. Numbers are below 2^32, decimal or
/// hexadecimal after `0x`.
///
/// `At` with `Feature` is answered for a line that asks for a feature of that format which is left
/// out: `|`, the words `local`, `as`, `new` and `none`, the sections `init`, `reset` and `preinit`,
/// and a registration in a head without a type. `At` with `Form` is answered for any other line of
/// no form, and for the line of a `{` or of a comment that is not closed. The first line with a
/// fault counts, and on one line `Feature` comes first. `Memory` is answered only where
/// memory runs out.
#[tactic(auto, unfolding(crate::specs::Platform::platform))]
pub fn read_platform(alloc: Global, text: &str) -> Result<Vec<Entry>, PlatFault>
    requires { length text.now ≤ 2 ^ 24 }
    ensures { Reads text.now result }
{
    let text = without_comments(alloc, text)?;
    let lines = token_lines(alloc, text.as_str())?;
    entries_of(alloc, &lines)
}
