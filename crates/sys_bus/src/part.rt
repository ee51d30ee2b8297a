//! The parts of a board: memories, devices, the timer and the interrupt controller.
ghost use Rattle.std.specs.Prelude.{◌≡◌, ◌<◌, ◌&&◌};
ghost use Rattle.std.specs.List.{list_all, range_with_len};
ghost use Rattle.sys_bus.specs.Part as part_spec;
ghost use Rattle.sys_bus.specs.declared.region.RegionKind.TheVariants.{Ram, Dev};

use crate::plan::{Named, NamedWhat};
use crate::region::{Region, RegionKind, is_same_part};

fn stands_for(part: RegionKind, what: NamedWhat) -> bool
    ensures { result ≡ part_spec.stands_for part what }
{
    match what {
        NamedWhat::Cpu => false,
        NamedWhat::Part(kind) => is_same_part(kind, part),
    }
}

fn names_of(names: &[Named], part: RegionKind) -> usize
    ensures { result ≡ part_spec.names_of names.now part }
{
    names.iter().filter(|n| stands_for(part, n.what)).count()
}

fn regions_of(regions: &[Region], part: RegionKind) -> usize
    ensures { result ≡ part_spec.regions_of regions.now part }
{
    regions
        .iter()
        .filter(|region| is_same_part(region.kind, part))
        .count()
}

fn has_one_each(names: &[Named], regions: &[Region], part: RegionKind) -> bool
    ensures { result ≡ part_spec.has_one_each names.now regions.now part }
{
    names_of(names, part) == 1 && regions_of(regions, part) == 1
}

fn has_at_most_one_each(names: &[Named], regions: &[Region], part: RegionKind) -> bool
    ensures { result ≡ part_spec.has_at_most_one_each names.now regions.now part }
{
    let count = regions_of(regions, part);
    count <= 1 && names_of(names, part) == count
}

fn has_memories(names: &[Named], regions: &[Region], memories: u8) -> bool
    ensures { result ≡ list_all (λ i. part_spec.has_one_each names.now regions.now (Ram i))
        (range_with_len 0 memories) }
{
    (0..memories).all(|i| has_one_each(names, regions, RegionKind::Ram(i)))
}

fn has_devices(names: &[Named], regions: &[Region], devices: u8) -> bool
    ensures { result ≡ list_all (λ i. part_spec.has_one_each names.now regions.now (Dev i))
        (range_with_len 0 devices) }
{
    (0..devices).all(|i| has_one_each(names, regions, RegionKind::Dev(i)))
}

/// Whether each of so many memories and devices, the timer and the interrupt controller have one
/// name and one region.
pub(crate) fn has_parts(names: &[Named], regions: &[Region], memories: u8, devices: u8) -> bool
    ensures { result ≡ part_spec.has_parts names.now regions.now memories devices }
{
    has_memories(names, regions, memories)
        && has_devices(names, regions, devices)
        && has_at_most_one_each(names, regions, RegionKind::Clint)
        && has_at_most_one_each(names, regions, RegionKind::Plic)
}

fn is_part(memories: usize, devices: usize, kind: RegionKind) -> bool
    ensures { result ≡ part_spec.is_part memories devices kind }
{
    match kind {
        RegionKind::Ram(i) => usize::from(i) < memories,
        RegionKind::Dev(i) => usize::from(i) < devices,
        RegionKind::Clint | RegionKind::Plic => true,
    }
}

fn names_part(memories: usize, devices: usize, what: NamedWhat) -> bool
    ensures { result ≡ part_spec.names_part memories devices what }
{
    match what {
        NamedWhat::Cpu => true,
        NamedWhat::Part(kind) => is_part(memories, devices, kind),
    }
}

fn all_name_parts(memories: usize, devices: usize, names: &[Named]) -> bool
    ensures { result ≡ part_spec.all_name_parts memories devices names.now }
{
    names.iter().all(|n| names_part(memories, devices, n.what))
}

fn all_hold_parts(memories: usize, devices: usize, regions: &[Region]) -> bool
    ensures { result ≡ part_spec.all_hold_parts memories devices regions.now }
{
    regions
        .iter()
        .all(|region| is_part(memories, devices, region.kind))
}

/// Whether no name and no region is that of a memory or a device beyond so many.
pub(crate) fn has_no_others(
    names: &[Named],
    regions: &[Region],
    memories: usize,
    devices: usize,
) -> bool
    ensures { result ≡ part_spec.has_no_others names.now regions.now memories devices }
{
    all_name_parts(memories, devices, names) && all_hold_parts(memories, devices, regions)
}

pub(crate) fn has_region(regions: &[Region], part: RegionKind) -> bool
    ensures { result ≡ part_spec.has_region regions.now part }
{
    regions.iter().any(|region| is_same_part(region.kind, part))
}

fn has_memory_size(memories: &[u32], kind: RegionKind, size: u32) -> bool
    ensures { result ≡ part_spec.has_memory_size memories.now kind size }
{
    match kind {
        RegionKind::Ram(i) => match memories.get(usize::from(i)) {
            Some(&memory) => size == memory,
            None => size == 0,
        },
        _ => true,
    }
}

/// Whether the region of each memory has the size of the memory.
pub(crate) fn have_memory_sizes(memories: &[u32], regions: &[Region]) -> bool
    ensures { result ≡ part_spec.have_memory_sizes memories.now regions.now }
{
    regions.iter().all(|region| has_memory_size(memories, region.kind, region.size))
}
