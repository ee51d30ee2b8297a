//! The attributes that each type has, and the values that they take.
ghost use Rattle.std.specs.Prelude.{◌≡◌, find};
ghost use Rattle.std.specs.Option.{option_map};
ghost use Rattle.repl_build.specs.Attributes as attribute;
ghost use Rattle.repl_build.specs.Counts.{count_of};

use crate::counts::count_of;
use crate::merge::{Peripheral, PlacedItem};
use crate::names::has_key;
use crate::types::PeripheralType;
use dev_core::Kind;
use lab_num::MOST_SPEED;
use page_ram::PAGE_SIZE;
use repl_read::{ItemWhat, Place, Value};
use sys_bus::{MOST_CONTEXTS, MOST_FREQUENCY, MOST_SOURCES};

/// What an attribute takes.
#[derive(Clone, Copy)]
pub(crate) enum Sort {
    /// A string.
    Quoted,
    /// A name.
    Reference,
    /// `true` or `false`.
    Flag,
    /// `true` alone.
    Yes,
    /// The number of the processor itself.
    Hart,
    /// A number from the least to the most.
    Within { least: u32, most: u32 },
    /// The size of a memory in bytes.
    Size,
}

fn cpu_sort(key: &str) -> Option<Sort>
    ensures { result ≡ attribute.cpu_sort key.now }
{
    match key {
        "cpuType" => Some(Sort::Quoted),
        "timeProvider" => Some(Sort::Reference),
        "hartId" => Some(Sort::Hart),
        "PerformanceInMips" => Some(Sort::Within {
            least: 1,
            most: MOST_SPEED,
        }),
        "privilegeArchitecture" => Some(Sort::Reference),
        "privilegedArchitecture" => Some(Sort::Reference),
        _ => None,
    }
}

fn memory_sort(key: &str) -> Option<Sort>
    ensures { result ≡ attribute.memory_sort key.now }
{
    match key {
        "size" => Some(Sort::Size),
        _ => None,
    }
}

fn clint_sort(key: &str) -> Option<Sort>
    ensures { result ≡ attribute.clint_sort key.now }
{
    match key {
        "frequency" => Some(Sort::Within {
            least: 1,
            most: MOST_FREQUENCY,
        }),
        "numberOfTargets" => Some(Sort::Within { least: 1, most: 1 }),
        _ => None,
    }
}

fn plic_sort(key: &str) -> Option<Sort>
    ensures { result ≡ attribute.plic_sort key.now }
{
    match key {
        "numberOfSources" => Some(Sort::Within {
            least: 1,
            most: u32::from(MOST_SOURCES),
        }),
        "numberOfContexts" => Some(Sort::Within {
            least: 1,
            most: u32::from(MOST_CONTEXTS),
        }),
        "prioritiesEnabled" => Some(Sort::Yes),
        _ => None,
    }
}

fn device_sort(kind: Kind, key: &str) -> Option<Sort>
    ensures { result ≡ attribute.device_sort kind key.now }
{
    if kind.may_be_wide() && key == "wideRegisters" {
        Some(Sort::Flag)
    } else {
        None
    }
}

/// What an attribute of a type takes, if the type has it.
fn sort_of(kind: Option<PeripheralType>, key: &str) -> Option<Sort>
    ensures { result ≡ attribute.sort_of kind key.now }
{
    match kind {
        Some(PeripheralType::Cpu) => cpu_sort(key),
        Some(PeripheralType::Memory) => memory_sort(key),
        Some(PeripheralType::Clint) => clint_sort(key),
        Some(PeripheralType::Plic) => plic_sort(key),
        Some(PeripheralType::Device(kind)) => device_sort(kind, key),
        None => None,
    }
}

/// Whether this is an attribute that the type does not have.
pub(crate) fn is_unknown(kind: Option<PeripheralType>, what: &ItemWhat) -> bool
    ensures { result ≡ attribute.is_unknown kind what.now }
{
    match what {
        ItemWhat::Attribute { key, .. } => sort_of(kind, key.as_str()).is_none(),
        ItemWhat::Wire { .. } => false,
    }
}

fn is_memory_size(size: u32) -> bool
    ensures { result ≡ attribute.is_memory_size size }
{
    size % PAGE_SIZE == 0 && PAGE_SIZE <= size
}

fn fits_range(at: Place, n: u32) -> bool
    ensures { result ≡ attribute.fits_range at n }
{
    match at {
        Place::Range { size, .. } => n == size,
        _ => true,
    }
}

/// Whether an attribute of what stands at a place, after these, takes a value.
fn takes(sort: Sort, before: &[Peripheral], at: Place, value: &Value) -> bool
    ensures { result ≡ attribute.takes sort (count_of before.now PeripheralType.Cpu) at value.now }
{
    match (sort, value) {
        (Sort::Quoted, Value::Words(_)) => true,
        (Sort::Reference, Value::Name(_)) => true,
        (Sort::Flag, Value::Truth(_)) => true,
        (Sort::Yes, Value::Truth(truth)) => *truth,
        (Sort::Hart, Value::Number(n)) => *n as usize == count_of(before, PeripheralType::Cpu),
        (Sort::Within { least, most }, Value::Number(n)) => least <= *n && *n <= most,
        (Sort::Size, Value::Number(n)) => is_memory_size(*n) && fits_range(at, *n),
        _ => false,
    }
}

/// Whether an attribute's value is of another sort than it takes, or out of range, where these stand
/// before it.
pub(crate) fn is_refused(
    kind: Option<PeripheralType>,
    before: &[Peripheral],
    at: Place,
    what: &ItemWhat,
) -> bool
    ensures { result ≡ attribute.is_refused kind (count_of before.now PeripheralType.Cpu) at what.now }
{
    match what {
        ItemWhat::Attribute { key, value } => match sort_of(kind, key.as_str()) {
            Some(sort) => !takes(sort, before, at, value),
            None => false,
        },
        ItemWhat::Wire { .. } => false,
    }
}

/// An attribute's item, if it stands there.
pub(crate) fn item_of<'a>(key: &str, items: &'a [PlacedItem]) -> Option<&'a PlacedItem>
    ensures { option_map (λ item. item.now) result ≡ attribute.item_of key.now items.now }
{
    items.iter().find(|item| has_key(key, &item.what))
}

/// Whether an attribute stands there.
pub(crate) fn has_attribute(key: &str, items: &[PlacedItem]) -> bool
    ensures { result ≡ attribute.has_attribute key.now items.now }
{
    items.iter().any(|item| has_key(key, &item.what))
}

/// The number that an attribute has, or its default.
pub(crate) fn number_of(key: &str, default: u32, items: &[PlacedItem]) -> u32
    ensures { result ≡ attribute.number_of key.now default items.now }
{
    match item_of(key, items) {
        Some(item) => number_by(default, &item.what),
        None => default,
    }
}

fn number_by(default: u32, what: &ItemWhat) -> u32
    ensures { result ≡ attribute.number_by default what.now }
{
    match what {
        ItemWhat::Attribute {
            value: Value::Number(n),
            ..
        } => *n,
        _ => default,
    }
}

fn is_true(what: &ItemWhat) -> bool
    ensures { result ≡ attribute.is_true what.now }
{
    match what {
        ItemWhat::Attribute {
            value: Value::Truth(truth),
            ..
        } => *truth,
        _ => false,
    }
}

/// Whether an attribute stands there and is true.
pub(crate) fn is_set(key: &str, items: &[PlacedItem]) -> bool
    ensures { result ≡ attribute.is_set key.now items.now }
{
    match item_of(key, items) {
        Some(item) => is_true(&item.what),
        None => false,
    }
}
