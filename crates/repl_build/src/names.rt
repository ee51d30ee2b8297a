//! What the entries are called.
ghost use Rattle.std.specs.Prelude.{◌≡◌, ℕ, [], IfErr, IfOk, List, OnOk, ◌||◌};
ghost use Rattle.repl_read.specs.declared.entry.Entry.{Entry};
ghost use Rattle.repl_build.specs.First.{first_fault};
ghost use Rattle.repl_build.specs.Inner.Seen as seen;
ghost use Rattle.repl_build.specs.Names as names_spec;

use crate::fault::fault_if;
use crate::seen::{Seen, add_word, has_word};
use repl_read::{Entry, Head, Item, ItemWhat, PlatCause, PlatFault};
use std::alloc::Global;

/// Whether a name is given a type that was given one before.
fn repeats_name(names: &Seen<'_>, head: &Head) -> bool
    ensures { result ≡ seen.types_again names.now head.now }
{
    match head {
        Head::Typed { name, .. } => has_word(names, name.as_str()),
        Head::Using(_) | Head::Update { .. } => false,
    }
}

/// Keeps the name that is given a type.
fn add_name<'a>(names: &mut Seen<'a>, head: &'a Head) -> Result<(), PlatFault>
    ensures ok { OnOk result ((q : List ℕ) →
        seen.has_word names.new q ≡ (names_spec.types_name q head.now || seen.has_word names.old q)) }
    ensures err { IfErr result (λ fault. fault ≡ PlatFault.Memory) }
{
    match head {
        Head::Typed { name, .. } => add_word(names, name.as_str()),
        Head::Using(_) | Head::Update { .. } => Ok(()),
    }
}

/// Whether this is the attribute of that key.
pub(crate) fn has_key(key: &str, what: &ItemWhat) -> bool
    ensures { result ≡ names_spec.has_key key.now what.now }
{
    match what {
        ItemWhat::Attribute { key: other, .. } => other.as_str() == key,
        ItemWhat::Wire { .. } => false,
    }
}

/// Whether an attribute stands there that stood there before.
fn repeats_key(keys: &Seen<'_>, what: &ItemWhat) -> bool
    ensures { result ≡ seen.stands_again keys.now what.now }
{
    match what {
        ItemWhat::Attribute { key, .. } => has_word(keys, key.as_str()),
        ItemWhat::Wire { .. } => false,
    }
}

/// Keeps the key of an attribute.
fn add_key<'a>(keys: &mut Seen<'a>, what: &'a ItemWhat) -> Result<(), PlatFault>
    ensures ok { OnOk result ((q : List ℕ) →
        seen.has_word keys.new q ≡ (names_spec.has_key q what.now || seen.has_word keys.old q)) }
    ensures err { IfErr result (λ fault. fault ≡ PlatFault.Memory) }
{
    match what {
        ItemWhat::Attribute { key, .. } => add_word(keys, key.as_str()),
        ItemWhat::Wire { .. } => Ok(()),
    }
}

/// The fault of the first attribute that stands there twice.
fn repeated_item(alloc: Global, file: u32, items: &[Item]) -> Result<Option<PlatFault>, PlatFault>
    ensures ok { IfOk result (λ fault. fault ≡ first_fault (names_spec.repeated_item file) [] items.now) }
    ensures err { IfErr result (λ fault. fault ≡ PlatFault.Memory) }
{
    let mut keys = Seen::new(alloc);
    for item in items {
        let repeats = repeats_key(&keys, &item.what);
        let fault = fault_if(repeats, file, item.line, PlatCause::Twice);
        if fault.is_some() {
            return Ok(fault);
        }
        add_key(&mut keys, &item.what)?;
    }
    Ok(None)
}

fn repeated_in(
    alloc: Global,
    names: &Seen<'_>,
    entry: &Entry,
) -> Result<Option<PlatFault>, PlatFault>
    ensures ok { (before : List Entry) → seen.HasTyped names.now before →
        IfOk result (λ fault. fault ≡ names_spec.repeated_in before entry.now) }
    ensures err { IfErr result (λ fault. fault ≡ PlatFault.Memory) }
{
    let repeats = repeats_name(names, &entry.head);
    match fault_if(repeats, entry.file, entry.line, PlatCause::Twice) {
        Some(fault) => Ok(Some(fault)),
        None => repeated_item(alloc, entry.file, entry.items.items()),
    }
}

/// The fault of the first name that is given a type twice, or attribute that stands twice in an
/// entry.
pub(crate) fn repeated(alloc: Global, entries: &[Entry]) -> Result<Option<PlatFault>, PlatFault>
    ensures ok { IfOk result (λ fault. fault ≡ names_spec.repeated entries.now) }
    ensures err { IfErr result (λ fault. fault ≡ PlatFault.Memory) }
{
    let mut names = Seen::new(alloc);
    for entry in entries {
        let fault = repeated_in(alloc, &names, entry)?;
        if fault.is_some() {
            return Ok(fault);
        }
        add_name(&mut names, &entry.head)?;
    }
    Ok(None)
}

/// Whether a name is given further items that was given no type before.
fn lacks_type(names: &Seen<'_>, head: &Head) -> bool
    ensures { result ≡ seen.updates_none names.now head.now }
{
    match head {
        Head::Update { name } => !has_word(names, name.as_str()),
        Head::Using(_) | Head::Typed { .. } => false,
    }
}

/// The fault of the first entry with further items of a name that is not typed before.
pub(crate) fn untyped(alloc: Global, entries: &[Entry]) -> Result<Option<PlatFault>, PlatFault>
    ensures ok { IfOk result (λ fault. fault ≡ names_spec.untyped entries.now) }
    ensures err { IfErr result (λ fault. fault ≡ PlatFault.Memory) }
{
    let mut names = Seen::new(alloc);
    for entry in entries {
        let lacks = lacks_type(&names, &entry.head);
        let fault = fault_if(lacks, entry.file, entry.line, PlatCause::Reference);
        if fault.is_some() {
            return Ok(fault);
        }
        add_name(&mut names, &entry.head)?;
    }
    Ok(None)
}
