//! Where peripherals stand: their registration, addresses and sizes.
ghost use Rattle.std.specs.Prelude.{◌≡◌};
ghost use Rattle.std.specs.List.{list_any};
ghost use Rattle.repl_build.specs.Places as place;

use crate::attributes::{has_attribute, is_set, number_of};
use crate::merge::{Peripheral, PlacedItem};
use crate::types::PeripheralType;
use page_ram::PAGE_SIZE;
use repl_read::Place;
use sys_bus::{LEAST_CLINT, LEAST_PLIC, REGION_UNIT};

fn is_registered(kind: Option<PeripheralType>, at: Place) -> bool
    ensures { result ≡ place.is_registered kind at }
{
    match (kind, at) {
        (Some(PeripheralType::Cpu), Place::Bus) => true,
        (Some(PeripheralType::Cpu), _) => false,
        (_, Place::Address(_) | Place::Range { .. }) => true,
        (_, Place::Absent | Place::Bus) => false,
    }
}

fn has_range(at: Place) -> bool
    ensures { result ≡ place.has_range at }
{
    match at {
        Place::Range { .. } => true,
        _ => false,
    }
}

fn has_required(kind: Option<PeripheralType>, at: Place, items: &[PlacedItem]) -> bool
    ensures { result ≡ place.has_required kind at items.now }
{
    match kind {
        Some(PeripheralType::Cpu) => has_attribute("cpuType", items),
        Some(PeripheralType::Memory) => has_range(at) || has_attribute("size", items),
        Some(PeripheralType::Clint) => has_attribute("frequency", items),
        Some(PeripheralType::Plic) => has_attribute("numberOfSources", items),
        Some(PeripheralType::Device(_)) | None => true,
    }
}

/// Whether a required attribute is absent, or a processor is registered otherwise than at the bus,
/// or another peripheral is registered without an address.
pub(crate) fn is_lacking(p: &Peripheral) -> bool
    ensures { result ≡ place.is_lacking p.now }
{
    !(is_registered(p.kind, p.at) && has_required(p.kind, p.at, p.items.items()))
}

/// How many bytes lie from one register to the next.
pub(crate) fn step_of(kind: Option<PeripheralType>, items: &[PlacedItem]) -> u8
    ensures { result ≡ place.step_of kind items.now }
{
    match kind {
        Some(PeripheralType::Device(kind)) if kind.may_be_wide() => {
            if is_set("wideRegisters", items) { 4 } else { 1 }
        }
        _ => 1,
    }
}

/// The fewest bytes: up to the last register.
fn least_of(kind: Option<PeripheralType>, step: u8) -> u32
    ensures { result ≡ place.least_of kind step }
{
    match kind {
        Some(PeripheralType::Memory) => PAGE_SIZE,
        Some(PeripheralType::Clint) => LEAST_CLINT,
        Some(PeripheralType::Plic) => LEAST_PLIC,
        Some(PeripheralType::Device(kind)) => kind.least_size(step),
        Some(PeripheralType::Cpu) | None => 0,
    }
}

fn is_unit(kind: Option<PeripheralType>, size: u32) -> bool
    ensures { result ≡ place.is_unit kind size }
{
    match kind {
        Some(PeripheralType::Memory) => size % PAGE_SIZE == 0,
        _ => size % REGION_UNIT == 0,
    }
}

fn is_place(kind: Option<PeripheralType>, step: u8, at: Place) -> bool
    ensures { result ≡ place.is_place kind step at }
{
    match at {
        Place::Address(base) => base % REGION_UNIT == 0,
        Place::Range { base, size } => {
            base % REGION_UNIT == 0 && is_unit(kind, size) && least_of(kind, step) <= size
        }
        Place::Absent | Place::Bus => true,
    }
}

/// Whether an address or a size is of a wrong multiple, or a size below the least.
pub(crate) fn is_misplaced(p: &Peripheral) -> bool
    ensures { result ≡ place.is_misplaced p.now }
{
    !is_place(p.kind, step_of(p.kind, p.items.items()), p.at)
}

/// The size in bytes where no range says it.
fn usual_size(kind: Option<PeripheralType>, items: &[PlacedItem]) -> u32
    ensures { result ≡ place.usual_size kind items.now }
{
    match kind {
        Some(PeripheralType::Memory) => number_of("size", 0, items),
        Some(PeripheralType::Clint) => 0x1_0000,
        Some(PeripheralType::Plic) => 0x400_0000,
        Some(PeripheralType::Device(kind)) => kind.usual_size(),
        Some(PeripheralType::Cpu) | None => 0,
    }
}

/// The size in bytes.
pub(crate) fn size_of(p: &Peripheral) -> u32
    ensures { result ≡ place.size_of p.now }
{
    match p.at {
        Place::Range { size, .. } => size,
        _ => usual_size(p.kind, p.items.items()),
    }
}

/// The first address, or 0 where there is none.
pub(crate) fn base_of(p: &Peripheral) -> u32
    ensures { result ≡ place.base_of p.now }
{
    match p.at {
        Place::Address(base) => base,
        Place::Range { base, .. } => base,
        Place::Absent | Place::Bus => 0,
    }
}

/// The address after the last byte.
fn end_of(p: &Peripheral) -> u64
    ensures { result ≡ place.end_of p.now }
{
    u64::from(base_of(p)) + u64::from(size_of(p))
}

fn overlaps(a: &Peripheral, b: &Peripheral) -> bool
    ensures { result ≡ place.overlaps a.now b.now }
{
    u64::from(base_of(a).max(base_of(b))) < end_of(a).min(end_of(b))
}

fn overlaps_any(others: &[Peripheral], p: &Peripheral) -> bool
    ensures { result ≡ list_any (place.overlaps p.now) others.now }
{
    others.iter().any(|other| overlaps(p, other))
}

/// Whether a peripheral overlaps an earlier one, or ends past the last address.
pub(crate) fn collides(before: &[Peripheral], p: &Peripheral) -> bool
    ensures { result ≡ place.collides before.now p.now }
{
    0x1_0000_0000 < end_of(p) || overlaps_any(before, p)
}
