//! The regions of a board.
ghost use Rattle.std.specs.Prelude.{◌≡◌, ℕ, ◌+◌, ◌<◌, ◌≤◌, List, length, filter, find, slice_get, IsTrue, IfSome};
ghost use Rattle.sys_bus.specs.declared.region.Region.{Region};
ghost use Rattle.sys_bus.specs.Region.{holds, overlaps, count_of_overlaps, are_apart, are_addressed, target_of};
ghost use Rattle.sys_bus.specs.Region.{HasByte, target_if, room_of, step_of, further, IsWithin, IsWidth};
ghost use Rattle.sys_bus.specs.Place.{IsPlace};

use crate::near::{MemoryPlace, NearMemory};
use crate::region::{Region, RegionKind, Target, is_same_part};
use std::marker::Model;

fn count_of_overlaps(regions: &[Region], region: &Region) -> usize
    ensures { result ≡ count_of_overlaps regions.now region.now }
{
    regions
        .iter()
        .filter(|other| region.overlaps(other))
        .count()
}

/// Whether no byte lies in two regions.
pub(crate) fn are_apart(regions: &[Region]) -> bool
    ensures { result ≡ are_apart regions.now }
{
    regions
        .iter()
        .all(|region| count_of_overlaps(regions, region) <= 1)
}

/// Whether the last byte of each region has an address of 32 bits.
pub(crate) fn are_addressed(regions: &[Region]) -> bool
    ensures { result ≡ are_addressed regions.now }
{
    regions.iter().all(|region| region.end() <= 0x1_0000_0000)
}

/// The regions of a board, of which no two have a byte in common.
#[derive(Drop)]
pub struct Regions {
    list: Vec<Region>,
    /// The memory of the last fetch.
    of_code: NearMemory,
    /// The memory of the last load or store.
    of_data: NearMemory,
}

impl Model for Regions {
    ghost use Rattle.std.specs.Prelude.{List, IsTrue};
    ghost use Rattle.sys_bus.specs.declared.region.Region.{Region};
    ghost use Rattle.sys_bus.specs.Region.{are_apart, are_addressed};
    ghost use Rattle.sys_bus.specs.Inner.Near.{IsNear};

    ghost Value = { List Region };

    ghost view = { λ r. r.list.items };

    ghost invariant = { λ r.
        IsTrue (are_apart r.list.items)
        × IsTrue (are_addressed r.list.items)
        × IsNear r.list.items r.of_code
        × IsNear r.list.items r.of_data };
}

impl Regions {
    pub fn new(list: Vec<Region>) -> Regions
        requires apart { IsTrue (are_apart list.items) }
        requires addressed { IsTrue (are_addressed list.items) }
        ensures { result ≡ list.items }
    {
        Regions {
            list,
            of_code: NearMemory::none(),
            of_data: NearMemory::none(),
        }
    }

    /// The region that holds an access of `width` bytes, if one does.
    fn holder(&self, at: u32, width: u8) -> Option<Region>
        requires { IsWidth width }
        ensures region { result ≡ find (holds at width) self.now }
        ensures base { IfSome result (λ region. region.base ≤ at) }
        ensures within { IsWithin self.now width (target_if at result) }
    {
        for region in &self.list {
            if region.holds(at, width) {
                return Some(*region);
            }
        }
        None
    }

    /// What an access of `width` bytes belongs to: the one region that holds them all, or nothing.
    pub fn find(&self, at: u32, width: u8) -> Target
        requires { IsWidth width }
        ensures target { result ≡ target_of self.now at width }
        ensures within { IsWithin self.now width result }
    {
        match self.holder(at, width) {
            Some(region) => region.target(at),
            None => Target::Nothing,
        }
    }

    /// The place of an address in the memory of the last fetch that was sought by `find_code`.
    /// `None` says nothing: `find_code` is to be asked.
    #[inline(always)]
    pub fn near_code(&self, at: u32) -> Option<MemoryPlace>
        ensures { IfSome result (IsPlace self.now at) }
    {
        self.of_code.place(at)
    }

    /// The same for loads and stores, which `find_data` seeks.
    #[inline(always)]
    pub fn near_data(&self, at: u32) -> Option<MemoryPlace>
        ensures { IfSome result (IsPlace self.now at) }
    {
        self.of_data.place(at)
    }

    /// What the word of a fetch belongs to. `near_code` knows a memory from then on.
    pub fn find_code(&mut self, at: u32) -> Target
        ensures target { result ≡ target_of self.old at 4 }
        ensures within { IsWithin self.old 4 result }
        ensures same { self.new ≡ self.old }
    {
        let Some(region) = self.holder(at, 4) else {
            return Target::Nothing;
        };
        if let RegionKind::Ram(part) = region.kind {
            self.of_code = NearMemory::of(&region, part);
        }
        region.target(at)
    }

    /// What a load or a store of `width` bytes belongs to. `near_data` knows a memory from then on.
    pub fn find_data(&mut self, at: u32, width: u8) -> Target
        requires { IsWidth width }
        ensures target { result ≡ target_of self.old at width }
        ensures within { IsWithin self.old width result }
        ensures same { self.new ≡ self.old }
    {
        let Some(region) = self.holder(at, width) else {
            return Target::Nothing;
        };
        if let RegionKind::Ram(part) = region.kind {
            self.of_data = NearMemory::of(&region, part);
        }
        region.target(at)
    }

    /// How many bytes lie from an address to the end of the region that holds it. 0 where none does.
    pub fn room(&self, at: u32) -> u32
        ensures { result ≡ room_of self.now at }
    {
        for region in &self.list {
            if region.holds(at, 1) {
                return region.size - (at - region.base);
            }
        }
        0
    }

    /// How many bytes lie from one register of a device to the next. 1 where no region is the
    /// device's.
    #[inline]
    pub fn step_of(&self, dev: u8) -> u8
        ensures { result ≡ step_of self.now dev }
    {
        for region in &self.list {
            if is_same_part(region.kind, RegionKind::Dev(dev)) {
                return region.step;
            }
        }
        1
    }
}

/// What an access of `width` bytes belongs to, where a board has these regions.
pub fn target_of(regions: &[Region], at: u32, width: u8) -> Target
    ensures { result ≡ target_of regions.now at width }
{
    for region in regions {
        if region.holds(at, width) {
            return region.target(at);
        }
    }
    Target::Nothing
}

/// Of regions of which no two have a byte in common, at most one holds an access.
pub fn accesses_belong_to_one_region()
    ensures { (regions : List Region) (at width : ℕ) → 0 < width → IsTrue (are_apart regions) →
        length (filter (holds at width) regions) ≤ 1 }
{}

/// Of regions of which no two have a byte in common, at most one has an address.
pub fn an_address_lies_in_one_region()
    ensures { (regions : List Region) (at i j : ℕ) (one other : Region) → IsTrue (are_apart regions) →
        slice_get regions i ≡ Some one → HasByte one at →
        slice_get regions j ≡ Some other → HasByte other at → i ≡ j }
{}

/// As far as a region goes, each byte belongs to the same as the first, so many bytes further on.
pub fn bytes_of_a_region_belong_together()
    ensures { (regions : List Region) (at i : ℕ) → IsTrue (are_apart regions) → i < room_of regions at →
        target_of regions (at + i) 1 ≡ further i (target_of regions at 1) }
{}
