//! Peripherals: the entries that have types, each with the further items that other entries give
//! it.
ghost use Rattle.std.specs.Prelude.{◌≡◌, ◌++◌, ◌∷◌, [], ℕ, IfOk, IfErr, List, OnOk, map};
ghost use Rattle.std.specs.List.{flat_map, fold};
ghost use Rattle.std.specs.Str.{bytes_eq};
ghost use Rattle.repl_read.specs.declared.entry.Entry.{Entry};
ghost use Rattle.repl_build.specs.Inner.Found.{HasUpdates, found, update_of};
ghost use Rattle.repl_build.specs.Merge as merge_spec;
ghost use Rattle.repl_build.specs.Inner.Places.{HasPlaces, place, place_told, with_place};
ghost use Rattle.repl_build.specs.Names as names_spec;

use crate::types::{PeripheralType, type_of};
use lab_num::{Rows, Text};
use repl_read::{Entry, Head, Item, ItemWhat, Place, PlatFault};
use std::alloc::Global;
use std::collections::BTreeMap;

/// An item, and where it stands.
#[derive(Drop)]
pub(crate) struct PlacedItem {
    pub(crate) file: u32,
    pub(crate) line: u32,
    pub(crate) what: ItemWhat,
}

/// An entry that has a type, with all its items.
#[derive(Drop)]
pub(crate) struct Peripheral {
    pub(crate) file: u32,
    pub(crate) line: u32,
    pub(crate) name: Text,
    /// `None` where no type has the name that the entry says.
    pub(crate) kind: Option<PeripheralType>,
    pub(crate) at: Place,
    pub(crate) items: Rows<PlacedItem>,
}

/// Under its key, where an attribute first stands among items.
type Places<'a> = BTreeMap<&'a str, usize>;

/// The items of a peripheral so far, and where their attributes stand.
#[derive(Drop)]
struct Items<'a> {
    all: Vec<PlacedItem>,
    places: Places<'a>,
}

/// A copy of an item, with its file.
fn placed(file: u32, item: &Item) -> Result<PlacedItem, PlatFault>
    ensures ok { IfOk result (λ made. made ≡ merge_spec.placed file item.now) }
    ensures err { IfErr result (λ fault. fault ≡ PlatFault.Memory) }
{
    let what = item.what.clone()?;
    Ok(PlacedItem {
        file,
        line: item.line,
        what,
    })
}

/// Keeps a place under a key that has none.
fn keep_place<'a>(places: &mut Places<'a>, key: &'a str, at: usize) -> Result<(), PlatFault>
    ensures ok { OnOk result ((q : List ℕ) →
        place places.new q ≡ with_place (bytes_eq key.now q) (place places.old q) at) }
    ensures err { IfErr result (λ fault. fault ≡ PlatFault.Memory) }
{
    if places.get(key).is_none() {
        places.insert(key, at)?;
    }
    Ok(())
}

/// Keeps the place of an attribute, if it is the first of its key.
fn keep<'a>(places: &mut Places<'a>, what: &'a ItemWhat, at: usize) -> Result<(), PlatFault>
    ensures ok { OnOk result ((q : List ℕ) →
        place places.new q ≡ with_place (names_spec.has_key q what.now) (place places.old q) at) }
    ensures err { IfErr result (λ fault. fault ≡ PlatFault.Memory) }
{
    match what {
        ItemWhat::Attribute { key, .. } => keep_place(places, key.as_str(), at),
        ItemWhat::Wire { .. } => Ok(()),
    }
}

/// Where an attribute stands already.
fn place_of(places: &Places<'_>, what: &ItemWhat) -> Option<usize>
    ensures { result ≡ place_told places.now what.now }
{
    match what {
        ItemWhat::Attribute { key, .. } => places.get(key.as_str()).copied(),
        ItemWhat::Wire { .. } => None,
    }
}

/// Puts an item at the end.
fn push_item<'a>(items: &mut Items<'a>, file: u32, item: &'a Item) -> Result<(), PlatFault>
    requires { HasPlaces items.old.places items.old.all.items }
    ensures ok { OnOk result (items.new.all.items
        ≡ items.old.all.items ++ merge_spec.placed file item.now ∷ []) }
    ensures places { OnOk result (HasPlaces items.new.places items.new.all.items) }
    ensures err { IfErr result (λ fault. fault ≡ PlatFault.Memory) }
{
    let at = items.all.len();
    items.all.push(placed(file, item)?)?;
    keep(&mut items.places, &item.what, at)
}

/// Puts a further attribute in the place of the one that was there, and all else at the end.
fn add_item<'a>(items: &mut Items<'a>, file: u32, item: &'a Item) -> Result<(), PlatFault>
    requires { HasPlaces items.old.places items.old.all.items }
    ensures ok { OnOk result (items.new.all.items
        ≡ merge_spec.with_item items.old.all.items (merge_spec.placed file item.now)) }
    ensures places { OnOk result (HasPlaces items.new.places items.new.all.items) }
    ensures err { IfErr result (λ fault. fault ≡ PlatFault.Memory) }
{
    match place_of(&items.places, &item.what) {
        Some(at) => {
            items.all[at] = placed(file, item)?;
            Ok(())
        }
        None => push_item(items, file, item),
    }
}

/// The items that stand in an entry.
fn own_items(alloc: Global, entry: &Entry) -> Result<Items<'_>, PlatFault>
    ensures ok { IfOk result (λ items. items.all.items ≡ merge_spec.own_items entry.now) }
    ensures places { IfOk result (λ items. HasPlaces items.places items.all.items) }
    ensures err { IfErr result (λ fault. fault ≡ PlatFault.Memory) }
{
    let mut items = Items {
        all: Vec::new(alloc),
        places: BTreeMap::new(alloc),
    };
    for item in entry.items.items() {
        push_item(&mut items, entry.file, item)?;
    }
    Ok(items)
}

/// Adds the items of an entry.
fn add_items<'a>(items: &mut Items<'a>, entry: &'a Entry) -> Result<(), PlatFault>
    requires { HasPlaces items.old.places items.old.all.items }
    ensures ok { OnOk result (items.new.all.items
        ≡ fold merge_spec.with_item items.old.all.items (merge_spec.own_items entry.now)) }
    ensures places { OnOk result (HasPlaces items.new.places items.new.all.items) }
    ensures err { IfErr result (λ fault. fault ≡ PlatFault.Memory) }
{
    for item in entry.items.items() {
        add_item(items, entry.file, item)?;
    }
    Ok(())
}

/// The entries with further items, by the name of which these are.
type Updates<'a> = BTreeMap<&'a str, Vec<&'a Entry>>;

/// Puts an entry after others of its name, if it has further items.
fn add_update<'a>(updates: &mut Updates<'a>, entry: &'a Entry) -> Result<(), PlatFault>
    ensures ok { OnOk result ((q : List ℕ) →
        found updates.new q ≡ found updates.old q ++ update_of q entry.now) }
    ensures err { IfErr result (λ fault. fault ≡ PlatFault.Memory) }
{
    if let Head::Update { name } = &entry.head {
        updates.entry(name.as_str())?.or_default().push(entry)?;
    }
    Ok(())
}

/// The entries with further items.
fn updates_of(alloc: Global, entries: &[Entry]) -> Result<Updates<'_>, PlatFault>
    ensures ok { IfOk result (λ updates. HasUpdates updates entries.now) }
    ensures err { IfErr result (λ fault. fault ≡ PlatFault.Memory) }
{
    let mut updates: Updates<'_> = BTreeMap::new(alloc);
    for entry in entries {
        add_update(&mut updates, entry)?;
    }
    Ok(updates)
}

/// Adds the items of entries.
fn add_all<'a>(items: &mut Items<'a>, entries: &[&'a Entry]) -> Result<(), PlatFault>
    requires { HasPlaces items.old.places items.old.all.items }
    ensures ok { OnOk result (items.new.all.items
        ≡ fold merge_spec.with_item items.old.all.items
        (flat_map merge_spec.own_items (map (λ entry. entry.now) entries.now))) }
    ensures places { OnOk result (HasPlaces items.new.places items.new.all.items) }
    ensures err { IfErr result (λ fault. fault ≡ PlatFault.Memory) }
{
    for entry in entries {
        add_items(items, entry)?;
    }
    Ok(())
}

/// Adds the further items that entries give a name.
fn add_further<'a>(
    items: &mut Items<'a>,
    updates: &Updates<'a>,
    name: &str,
) -> Result<(), PlatFault>
    requires { HasPlaces items.old.places items.old.all.items }
    ensures ok { OnOk result (items.new.all.items ≡ fold merge_spec.with_item items.old.all.items
        (flat_map merge_spec.own_items (found updates.now name.now))) }
    ensures err { IfErr result (λ fault. fault ≡ PlatFault.Memory) }
{
    match updates.get(name) {
        Some(entries) => add_all(items, entries),
        None => Ok(()),
    }
}

/// The items of an entry, with the further items that other entries give its name.
fn merged_items<'a>(
    alloc: Global,
    updates: &Updates<'a>,
    name: &str,
    entry: &'a Entry,
) -> Result<Vec<PlacedItem>, PlatFault>
    ensures ok { (entries : List Entry) → HasUpdates updates.now entries → IfOk result
        (λ items. items.items ≡ merge_spec.merged_items entries name.now entry.now) }
    ensures err { IfErr result (λ fault. fault ≡ PlatFault.Memory) }
{
    let mut items = own_items(alloc, entry)?;
    add_further(&mut items, updates, name)?;
    Ok(items.all)
}

/// Puts the peripheral that an entry gives its type after others, if it gives one.
fn add_peripheral<'a>(
    alloc: Global,
    peripherals: &mut Vec<Peripheral>,
    updates: &Updates<'a>,
    entry: &'a Entry,
) -> Result<(), PlatFault>
    ensures ok { (entries : List Entry) → HasUpdates updates.now entries → OnOk result
        (peripherals.new.items ≡ peripherals.old.items ++ merge_spec.peripheral_of entries entry.now) }
    ensures err { IfErr result (λ fault. fault ≡ PlatFault.Memory) }
{
    let Head::Typed { name, kind, at } = &entry.head else {
        return Ok(());
    };
    let items = merged_items(alloc, updates, name.as_str(), entry)?;
    peripherals.push(Peripheral {
        file: entry.file,
        line: entry.line,
        name: name.clone()?,
        kind: type_of(kind.as_str()),
        at: *at,
        items: Rows::of(items),
    })?;
    Ok(())
}

/// The peripherals, in the order of the entries that give them their types.
pub(crate) fn merged(alloc: Global, entries: &[Entry]) -> Result<Vec<Peripheral>, PlatFault>
    ensures ok { IfOk result (λ all. all.items ≡ merge_spec.merged entries.now) }
    ensures err { IfErr result (λ fault. fault ≡ PlatFault.Memory) }
{
    let updates = updates_of(alloc, entries)?;
    let mut peripherals = Vec::new(alloc);
    for entry in entries {
        add_peripheral(alloc, &mut peripherals, &updates, entry)?;
    }
    Ok(peripherals)
}
