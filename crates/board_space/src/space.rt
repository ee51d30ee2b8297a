//! All that the loads and stores of a board's processors reach: memories, a timer, an interrupt
//! controller and devices.
ghost use Rattle.std.specs.Prelude.{◌≡◌, ◌≤◌, ◌+◌, ◌<◌, ◌^◌, ◌%◌, [], length, map, option_map, All, IsTrue};
ghost use Rattle.std.specs.Prelude.{IfOk, IfSome, OnOk, OnErr};
ghost use Rattle.std.specs.Vec.{vec_len, vec_capacity};
ghost use Rattle.board_space.specs.Fit.{IsAccess};
ghost use Rattle.sys_bus.specs.Region.{IsWidth};
ghost use Rattle.page_ram.specs.Access.{IsInOnePage, IsRamSize};
ghost use Rattle.page_ram.specs.Bytes.{zeros, value_at, put_value};
ghost use Rattle.sys_bus.specs.Limits.{is_frequency, is_plic_size};
ghost use Rattle.sys_bus.specs.Plan.{IsValid};
ghost use Rattle.board_space.specs.Space.{memory_at, with_memory, target_at};
ghost use Rattle.board_space.specs.Words.{word_in};
ghost use Rattle.board_space.specs.New.{first_states, hidden, new_space, new_timer, new_controller};
ghost use Rattle.board_space.specs.Fit.{IsFit, LiesIn, IsInPage, HoldsAccesses};
ghost use Rattle.board_space.specs.Lines.{is_wired};

mod devices;
mod halves;
mod interrupts;
mod lines;
mod memories;

use crate::board_device::BoardDevice;
use crate::remembered::Remembered;
use clint::Clint;
use dev_core::Device;
use lab_num::NoMemory;
use page_ram::{PageRam, laws};
use plic::Plic;
use std::alloc::Global;
use std::collections::VecDeque;
use std::marker::Model;
use sys_bus::{BoardPlan, MemoryPlace, PlicSize, Regions, Target};

/// The memories and devices of a board, in the order of its plan, and its timer and interrupt
/// controller.
#[derive(Drop)]
pub struct Space<D: Device> {
    plan: BoardPlan,
    /// The plan's.
    regions: Regions,
    memories: Vec<PageRam>,
    timer: Option<Clint>,
    controller: Option<Plic>,
    devices: Vec<BoardDevice<D>>,
    /// Whether there is a line that may be up.
    wired: bool,
    /// The lines, as long as nothing was touched since that they depend on.
    remembered: Option<Remembered>,
}

impl<D: Device> Model for Space<D> {
    ghost use Rattle.std.specs.Prelude.{◌≡◌};
    ghost use Rattle.board_space.specs.Space.{Space as Seen};
    ghost use Rattle.board_space.specs.Fit.{IsFit};
    ghost use Rattle.board_space.specs.Lines.{is_wired};
    ghost use Rattle.board_space.specs.Inner.Remembers.{IsRight};

    ghost Value = { Seen };

    ghost view = { λ s. record {
      plan = s.plan;
      memories = s.memories.items;
      timer = s.timer;
      controller = s.controller;
      devices = s.devices.items;
    } };

    ghost invariant = { λ s.
        let seen : Seen = record {
          plan = s.plan;
          memories = s.memories.items;
          timer = s.timer;
          controller = s.controller;
          devices = s.devices.items;
        } in
        (s.regions ≡ s.plan.regions) × IsFit seen × (s.wired ≡ is_wired s.plan) × IsRight seen s.remembered };
}

/// What a new board of a plan reaches and takes memory for.
#[derive(Drop)]
pub struct Parts<D: Device> {
    pub regions: Regions,
    pub memories: Vec<PageRam>,
    /// Room for its devices.
    pub devices: Vec<BoardDevice<D>>,
}

/// Memories of these sizes, with 0 in each byte.
fn memories_of(alloc: Global, sizes: &[u32]) -> Result<Vec<PageRam>, NoMemory>
    requires { All IsRamSize sizes.now }
    ensures { IfOk result (λ memories. memories.items ≡ map zeros sizes.now) }
{
    let mut memories = Vec::new(alloc);
    for &size in sizes {
        memories.push(PageRam::new(alloc, size)?)?;
    }
    Ok(memories)
}

/// The regions of a plan, and its memories with 0 in each byte.
pub fn regions_and_memories(
    alloc: Global,
    plan: &BoardPlan,
) -> Result<(Regions, Vec<PageRam>), NoMemory>
    requires { IsValid plan.now }
    ensures regions { IfOk result (λ parts. parts.0 ≡ plan.now.regions) }
    ensures memories { IfOk result (λ parts. parts.1.items ≡ map zeros plan.now.memories) }
{
    let regions = Vec::from_slice(alloc, plan.regions.items())?;
    let memories = memories_of(alloc, plan.memories.items())?;
    Ok((Regions::new(regions), memories))
}

/// Puts devices as those of a board, none of them shown, into a list that has room for them.
fn fit_all<D: Device>(fitted: &mut Vec<BoardDevice<D>>, devices: Vec<D>)
    requires none { fitted.old.items ≡ [] }
    requires room { vec_len devices ≤ vec_capacity fitted.old }
    ensures { fitted.new.items ≡ map hidden (map D.meaning devices.items) }
{
    let mut rest = VecDeque::from(devices);
    while let Some(device) = rest.pop_front() {
        fitted.push_reserved(BoardDevice::new(device));
    }
}

/// The timer of a plan, in its reset state.
fn timer_of(frequency: Option<u32>) -> Option<Clint>
    requires { IsTrue (is_frequency frequency) }
    ensures { result ≡ option_map new_timer frequency }
{
    Some(Clint::new(frequency?))
}

/// The interrupt controller of a plan, in its reset state.
fn controller_of(size: Option<PlicSize>) -> Option<Plic>
    requires { IsTrue (is_plic_size size) }
    ensures { result ≡ option_map new_controller size }
{
    let size = size?;
    Some(Plic::new(size.sources, size.contexts))
}

/// Whether a board of the plan has a line that may be up.
fn is_wired(plan: &BoardPlan) -> bool
    ensures { result ≡ is_wired plan.now }
{
    plan.frequency.is_some() || plan.plic.is_some() || !plan.wires.items().is_empty()
}

impl<D: Device> Space<D> {
    /// What a new board of the plan reaches, of the parts that were made for the plan.
    pub fn new(plan: BoardPlan, parts: Parts<D>, devices: Vec<D>) -> Space<D>
        requires plan { IsValid plan }
        requires regions { parts.regions ≡ plan.regions }
        requires memories { parts.memories.items ≡ map zeros plan.memories }
        requires none { parts.devices.items ≡ [] }
        requires room { vec_len devices ≤ vec_capacity parts.devices }
        requires devices { map D.meaning devices.items ≡ first_states plan }
        ensures { result ≡ new_space plan }
    {
        let mut fitted = parts.devices;
        fit_all(&mut fitted, devices);
        Space {
            regions: parts.regions,
            memories: parts.memories,
            timer: timer_of(plan.frequency),
            controller: controller_of(plan.plic),
            devices: fitted,
            wired: is_wired(&plan),
            remembered: None,
            plan,
        }
    }

    pub fn plan(&self) -> &BoardPlan
        ensures plan { result.now ≡ self.now.plan }
        ensures fit { IsFit self.now }
    {
        &self.plan
    }

    /// The word at an address that is divisible by 4, where a memory holds all four bytes.
    #[inline(always)]
    pub fn fetch_aligned(&mut self, at: u32) -> Option<u32>
        requires { at % 4 ≡ 0 }
        ensures value { result ≡ word_in self.old at }
        ensures same { self.new ≡ self.old }
    {
        match self.near_code(at) {
            Some(place) => Some(self.load_memory(place.part, place.at, 4)),
            // taken apart, so that no tag is tested where a memory is near
            None => Some(self.fetch(at)?),
        }
    }

    /// The word at an address, where a memory holds all four bytes, by a search of all regions.
    #[cold]
    #[inline(never)]
    pub fn fetch(&mut self, at: u32) -> Option<u32>
        ensures value { result ≡ word_in self.old at }
        ensures same { self.new ≡ self.old }
    {
        match self.find_code(at) {
            Target::Ram { part, at } => Some(self.word_of_memory(part, at)),
            _ => None,
        }
    }

    /// What the word of a fetch belongs to.
    fn find_code(&mut self, at: u32) -> Target
        ensures target { result ≡ target_at self.old at 4 }
        ensures lies { LiesIn self.old 4 result }
        ensures same { self.new ≡ self.old }
    {
        self.regions.find_code(at)
    }

    /// The place of an address in the memory of the last fetch. `None` says nothing.
    #[inline(always)]
    pub fn near_code(&self, at: u32) -> Option<MemoryPlace>
        ensures { IfSome result (HoldsAccesses self.now at) }
    {
        laws::aligned_numbers_lie_in_one_page();
        self.regions.near_code(at)
    }

    /// The place of an address in the memory of the last load or store. `None` says nothing.
    #[inline(always)]
    pub fn near_data(&self, at: u32) -> Option<MemoryPlace>
        ensures { IfSome result (HoldsAccesses self.now at) }
    {
        laws::aligned_numbers_lie_in_one_page();
        self.regions.near_data(at)
    }

    /// What a load or a store belongs to, by a search of all regions.
    pub fn find_data(&mut self, at: u32, width: u8) -> Target
        requires { IsAccess at width }
        ensures target { result ≡ target_at self.old at width }
        ensures lies { LiesIn self.old width result }
        ensures page { IsInPage width result }
        ensures same { self.new ≡ self.old }
    {
        laws::aligned_numbers_lie_in_one_page();
        self.regions.find_data(at, width)
    }

    /// What an access belongs to.
    pub fn find(&self, at: u32, width: u8) -> Target
        requires { IsAccess at width }
        ensures target { result ≡ target_at self.now at width }
        ensures lies { LiesIn self.now width result }
    {
        self.regions.find(at, width)
    }

    /// The word at a place of a memory, which may lie in two pages.
    #[inline(always)]
    fn word_of_memory(&self, part: u8, at: u32) -> u32
        requires part { part < length self.now.memories }
        requires lies { at + 4 ≤ length (memory_at self.now part) }
        ensures { result ≡ value_at (memory_at self.now part) at 4 }
    {
        self.memories[usize::from(part)].load(at, 4)
    }

    #[inline(always)]
    pub fn load_memory(&self, part: u8, at: u32, width: u8) -> u32
        requires width { IsWidth width }
        requires part { part < length self.now.memories }
        requires lies { at + width ≤ length (memory_at self.now part) }
        requires page { IsInOnePage at width }
        ensures value { result ≡ value_at (memory_at self.now part) at width }
        ensures fits { result < 256 ^ width }
    {
        self.memories[usize::from(part)].load_in_page(at, width)
    }

    #[inline(always)]
    pub fn store_memory(&mut self, part: u8, at: u32, width: u8, value: u32) -> Result<(), NoMemory>
        requires width { IsWidth width }
        requires part { part < length self.old.memories }
        requires lies { at + width ≤ length (memory_at self.old part) }
        requires page { IsInOnePage at width }
        ensures ok { OnOk result (self.new ≡
            with_memory self.old part (put_value (memory_at self.old part) at width value)) }
        ensures err { OnErr result (self.new ≡ self.old) }
    {
        self.memories[usize::from(part)].store(at, width, value)
    }
}
