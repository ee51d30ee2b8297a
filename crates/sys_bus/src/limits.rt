//! How many parts a board has, how large they are, and the ranges of its numbers.
ghost use Rattle.std.specs.Prelude.{◌≡◌, ◌<◌, ◌≤◌, length, sum};
ghost use Rattle.std.specs.List.{list_all};
ghost use Rattle.sys_bus.specs.Limits as limit;

use crate::plan::PlicSize;
use crate::region::{Region, RegionKind};
use dev_core::{KINDS, Kind};
use lab_num::{MOST_SPEED, Text};
use page_ram::PAGE_SIZE;
use rv_hart::MOST_HARTS;

pub const MOST_MEMORIES: usize = 8;

/// The most bytes of all memories together: 64 MiB.
pub const MOST_MEMORY: u64 = 67_108_864;

/// The most ticks of the timer in a second.
pub const MOST_FREQUENCY: u32 = 1_000_000_000;

pub const MOST_SOURCES: u8 = 127;

pub const MOST_CONTEXTS: u8 = 15;

/// Addresses and sizes of regions are multiples of this.
pub const REGION_UNIT: u32 = 4;

/// The fewest bytes of the region of a timer, up to the last word of mtime.
pub const LEAST_CLINT: u32 = 0xC000;

/// The fewest bytes of the region of an interrupt controller, up to the words of its contexts.
pub const LEAST_PLIC: u32 = 0x21_0000;

fn count_of(kinds: &[Kind], kind: Kind) -> usize
    ensures { result ≡ limit.count_of kinds.now kind }
{
    kinds.iter().filter(|other| kind.is(**other)).count()
}

/// Whether there are no more devices of a kind than a board may have.
fn are_few_of(kinds: &[Kind], kind: Kind) -> bool
    ensures { result ≡ limit.are_few_of kinds.now kind }
{
    count_of(kinds, kind) <= kind.most()
}

/// Whether there are no more devices of each of these kinds than a board may have.
fn are_few_of_each(kinds: &[Kind], each: &[Kind]) -> bool
    ensures { result ≡ list_all (limit.are_few_of kinds.now) each.now }
{
    each.iter().all(|kind| are_few_of(kinds, *kind))
}

/// Whether there are no more devices of each kind than a board may have.
pub(crate) fn are_few_devices(kinds: &[Kind]) -> bool
    ensures { result ≡ limit.are_few_devices kinds.now }
{
    are_few_of_each(kinds, &KINDS)
}

/// The bytes of all memories together.
fn bytes_of(memories: &[u32]) -> u64
    requires { length memories.now ≤ limit.most_memories }
    ensures { result ≡ sum memories.now }
{
    memories.iter().map(|&size| u64::from(size)).sum()
}

/// Whether there are 1 to 8 memories, of together at most 64 MiB.
pub(crate) fn are_few_memories(memories: &[u32]) -> bool
    ensures { result ≡ limit.are_few_memories memories.now }
{
    let count = memories.len();
    1 <= count && count <= MOST_MEMORIES && bytes_of(memories) <= MOST_MEMORY
}

/// Whether there are one to four processors.
pub(crate) fn are_few_processors(cpus: &[Text]) -> bool
    ensures { result ≡ limit.are_few_processors cpus.now }
{
    1 <= cpus.len() && cpus.len() <= MOST_HARTS
}

/// Whether so many processors may do so many instructions together in a microsecond: 1 to 1,000,
/// each as many as the others.
pub fn is_speed(processors: u32, speed: u32) -> bool
    requires { 0 < processors }
    ensures { result ≡ limit.is_speed processors speed }
{
    1 <= speed && speed <= MOST_SPEED && speed % processors == 0
}

pub(crate) fn is_frequency(frequency: Option<u32>) -> bool
    ensures { result ≡ limit.is_frequency frequency }
{
    match frequency {
        Some(ticks) => 1 <= ticks && ticks <= MOST_FREQUENCY,
        None => true,
    }
}

pub(crate) fn is_plic_size(plic: Option<PlicSize>) -> bool
    ensures { result ≡ limit.is_plic_size plic }
{
    match plic {
        Some(size) => {
            1 <= size.sources
                && size.sources <= MOST_SOURCES
                && 1 <= size.contexts
                && size.contexts <= MOST_CONTEXTS
        }
        None => true,
    }
}

/// The kind of the device that stands in a region, if a device does.
fn device_in(kinds: &[Kind], kind: RegionKind) -> Option<Kind>
    ensures { result ≡ limit.device_in kinds.now kind }
{
    match kind {
        RegionKind::Dev(i) => kinds.get(usize::from(i)).copied(),
        _ => None,
    }
}

fn is_step(device: Option<Kind>, step: u8) -> bool
    ensures { result ≡ limit.is_step device step }
{
    match device {
        Some(kind) => kind.is_step(step),
        None => step == 1,
    }
}

/// Whether the registers of each device lie as far apart as its kind allows, and those of all else side by side.
pub(crate) fn are_steps(kinds: &[Kind], regions: &[Region]) -> bool
    ensures { result ≡ limit.are_steps kinds.now regions.now }
{
    regions.iter().all(|region| is_step(device_in(kinds, region.kind), region.step))
}

fn least_size(kinds: &[Kind], kind: RegionKind, step: u8) -> u32
    ensures { result ≡ limit.least_size kinds.now kind step }
{
    match kind {
        RegionKind::Ram(_) => PAGE_SIZE,
        RegionKind::Clint => LEAST_CLINT,
        RegionKind::Plic => LEAST_PLIC,
        RegionKind::Dev(i) => match kinds.get(usize::from(i)) {
            Some(device) => device.least_size(step),
            None => 0,
        },
    }
}

/// What the size of a region is a multiple of.
fn unit_of(kind: RegionKind) -> u32
    ensures value { result ≡ limit.unit_of kind }
    ensures positive { 0 < result }
{
    match kind {
        RegionKind::Ram(_) => PAGE_SIZE,
        _ => REGION_UNIT,
    }
}

fn is_range(kinds: &[Kind], region: &Region) -> bool
    ensures { result ≡ limit.is_range kinds.now region.now }
{
    region.base % REGION_UNIT == 0
        && region.size % unit_of(region.kind) == 0
        && least_size(kinds, region.kind, region.step) <= region.size
}

/// Whether each region has an address and a size that may be.
pub(crate) fn are_ranges(kinds: &[Kind], regions: &[Region]) -> bool
    ensures { result ≡ limit.are_ranges kinds.now regions.now }
{
    regions.iter().all(|region| is_range(kinds, region))
}
