//! The plan of a board.
ghost use Rattle.std.specs.Prelude.{◌↔◌, IsTrue};

use crate::limits::{
    are_few_devices, are_few_memories, are_few_processors, are_ranges, are_steps, is_frequency,
    is_plic_size, is_speed,
};
use crate::name::{are_names, are_processors, do_names_differ};
use crate::part::{has_no_others, has_parts, has_region, have_memory_sizes};
use crate::region::{Region, RegionKind};
use crate::regions::{are_addressed, are_apart};
use crate::wire::{Wire, are_wires};
use dev_core::Kind;
use lab_num::{Rows, Text};
use rv_hart::Letters;

/// What a name of a platform stands for.
#[derive(Clone, Copy, PartialEq, Eq)]
pub enum NamedWhat {
    /// A processor.
    Cpu,
    Part(RegionKind),
}

/// A name of a platform.
#[derive(Drop)]
pub struct Named {
    pub name: Text,
    pub what: NamedWhat,
}

/// How many sources and contexts an interrupt controller has.
#[derive(Clone, Copy)]
pub struct PlicSize {
    pub sources: u8,
    pub contexts: u8,
}

/// What a board is made of.
#[derive(Drop)]
pub struct BoardPlan {
    pub names: Rows<Named>,
    pub regions: Rows<Region>,
    /// The sizes of the memories in bytes.
    pub memories: Rows<u32>,
    /// The kinds of the devices.
    pub kinds: Rows<Kind>,
    /// Ticks of the timer in a second of virtual time, where there is a timer.
    pub frequency: Option<u32>,
    /// Where there is an interrupt controller.
    pub plic: Option<PlicSize>,
    pub wires: Rows<Wire>,
    /// Instructions in a microsecond, of all processors together.
    pub speed: u32,
    /// The names of the processors. A processor's number is its place among them.
    pub cpus: Rows<Text>,
    /// The optional extensions of each processor.
    pub letters: Letters,
}

impl BoardPlan {
    ghost use Rattle.sys_bus.specs.Plan.{IsValid};
    ghost use Rattle.sys_bus.specs.Inner.Groups.{IsNamed, IsWithinLimits, IsWhole, IsLaidOut};

    fn is_named(&self) -> bool
        ensures { IsTrue result ↔ IsNamed self.now }
    {
        let names = self.names.items();
        are_names(names) && do_names_differ(names) && are_processors(names, self.cpus.items())
    }

    fn is_within_limits(&self) -> bool
        ensures { IsTrue result ↔ IsWithinLimits self.now }
    {
        are_few_devices(self.kinds.items())
            && are_few_memories(self.memories.items())
            && are_few_processors(self.cpus.items())
            && is_speed(self.cpus.items().len() as u32, self.speed)
            && is_frequency(self.frequency)
            && is_plic_size(self.plic)
            && are_ranges(self.kinds.items(), self.regions.items())
    }

    fn is_whole(&self) -> bool
        requires { IsWithinLimits self.now }
        ensures { IsTrue result ↔ IsWhole self.now }
    {
        let (names, regions) = (self.names.items(), self.regions.items());
        let (memories, devices) = (self.memories.items().len(), self.kinds.items().len());
        has_parts(names, regions, memories as u8, devices as u8)
            && has_no_others(names, regions, memories, devices)
            && self.frequency.is_some() == has_region(regions, RegionKind::Clint)
            && self.plic.is_some() == has_region(regions, RegionKind::Plic)
    }

    fn is_laid_out(&self) -> bool
        ensures { IsTrue result ↔ IsLaidOut self.now }
    {
        let (regions, kinds) = (self.regions.items(), self.kinds.items());
        have_memory_sizes(self.memories.items(), regions)
            && are_steps(kinds, regions)
            && are_apart(regions)
            && are_addressed(regions)
            && are_wires(
                kinds,
                regions,
                self.plic,
                self.cpus.items().len(),
                self.wires.items(),
            )
    }

    /// Whether a board can be made by the plan.
    pub fn is_valid(&self) -> bool
        ensures { IsTrue result ↔ IsValid self.now }
    {
        self.is_within_limits() && self.is_named() && self.is_whole() && self.is_laid_out()
    }
}
