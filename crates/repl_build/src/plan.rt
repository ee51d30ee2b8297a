//! The plan of peripherals that keep all rules.
ghost use Rattle.std.specs.Prelude.{◌≡◌, ◌<◌, [], IfOk, IfErr, option_to_list};
ghost use Rattle.std.specs.List.{sum_by};
ghost use Rattle.repl_build.specs.Inner.Tested.{IsTested};
ghost use Rattle.repl_build.specs.Numbers.{AreFew};
ghost use Rattle.repl_build.specs.Plan as plan_spec;
ghost use Rattle.repl_build.specs.Processors as processor;

use crate::attributes::number_of;
use crate::counts::{count_of, first_with};
use crate::merge::Peripheral;
use crate::numbers::what_of;
use crate::places::{base_of, size_of, step_of};
use crate::processors::{first_letters, speed_of};
use crate::types::{PeripheralType, is_type};
use crate::wires::wires_of;
use dev_core::Kind;
use lab_num::{Rows, Text};
use repl_read::PlatFault;
use rv_hart::Letters;
use std::alloc::Global;
use sys_bus::{BoardPlan, Named, NamedWhat, PlicSize, Region};

fn names_of(alloc: Global, all: &[Peripheral]) -> Result<Rows<Named>, PlatFault>
    requires { AreFew all.now }
    ensures ok { IfOk result (λ names. names ≡ plan_spec.each plan_spec.name_of [] all.now) }
    ensures err { IfErr result (λ fault. fault ≡ PlatFault.Memory) }
{
    let mut names = Vec::new(alloc);
    for (i, p) in all.iter().enumerate() {
        if let Some(what) = what_of(all, i, p.kind) {
            let name = p.name.clone()?;
            names.push(Named { name, what })?;
        }
    }
    Ok(Rows::of(names))
}

/// The region of a peripheral, unless it is a processor.
fn region_by(p: &Peripheral, what: Option<NamedWhat>) -> Option<Region>
    ensures { option_to_list result ≡ plan_spec.region_by p.now what }
{
    let Some(NamedWhat::Part(kind)) = what else {
        return None;
    };
    Some(Region {
        base: base_of(p),
        size: size_of(p),
        kind,
        step: step_of(p.kind, p.items.items()),
    })
}

fn regions_of(alloc: Global, all: &[Peripheral]) -> Result<Rows<Region>, PlatFault>
    requires { AreFew all.now }
    ensures ok { IfOk result (λ regions. regions ≡ plan_spec.each plan_spec.region_of [] all.now) }
    ensures err { IfErr result (λ fault. fault ≡ PlatFault.Memory) }
{
    let mut regions = Vec::new(alloc);
    for (i, p) in all.iter().enumerate() {
        if let Some(region) = region_by(p, what_of(all, i, p.kind)) {
            regions.push(region)?;
        }
    }
    Ok(Rows::of(regions))
}

/// The sizes of the memories in bytes.
fn memories_of(alloc: Global, all: &[Peripheral]) -> Result<Rows<u32>, PlatFault>
    ensures ok { IfOk result (λ sizes. sizes ≡ plan_spec.memories_of all.now) }
    ensures err { IfErr result (λ fault. fault ≡ PlatFault.Memory) }
{
    let mut sizes = Vec::new(alloc);
    for p in all {
        if is_type(PeripheralType::Memory, p.kind) {
            sizes.push(size_of(p))?;
        }
    }
    Ok(Rows::of(sizes))
}

fn kind_by(kind: Option<PeripheralType>) -> Option<Kind>
    ensures { result ≡ plan_spec.kind_by kind }
{
    match kind {
        Some(PeripheralType::Device(kind)) => Some(kind),
        _ => None,
    }
}

/// The names of the processors.
fn cpus_of(alloc: Global, all: &[Peripheral]) -> Result<Rows<Text>, PlatFault>
    ensures ok { IfOk result (λ names. names ≡ processor.cpus_of all.now) }
    ensures err { IfErr result (λ fault. fault ≡ PlatFault.Memory) }
{
    let mut names = Vec::new(alloc);
    for p in all {
        if is_type(PeripheralType::Cpu, p.kind) {
            names.push(p.name.clone()?)?;
        }
    }
    Ok(Rows::of(names))
}

/// The kinds of the devices.
fn kinds_of(alloc: Global, all: &[Peripheral]) -> Result<Rows<Kind>, PlatFault>
    ensures ok { IfOk result (λ kinds. kinds ≡ plan_spec.kinds_of all.now) }
    ensures err { IfErr result (λ fault. fault ≡ PlatFault.Memory) }
{
    let mut kinds = Vec::new(alloc);
    for p in all {
        if let Some(kind) = kind_by(p.kind) {
            kinds.push(kind)?;
        }
    }
    Ok(Rows::of(kinds))
}

/// Ticks of the timer in a second, where there is a timer.
fn frequency_of(all: &[Peripheral]) -> Option<u32>
    ensures { result ≡ plan_spec.frequency_of all.now }
{
    match first_with(PeripheralType::Clint, all) {
        Some(clint) => Some(number_of("frequency", 0, clint.items.items())),
        None => None,
    }
}

fn plic_size_of(p: &Peripheral) -> PlicSize
    requires sources { (plan_spec.plic_size_of p.now).sources < 256 }
    requires contexts { (plan_spec.plic_size_of p.now).contexts < 256 }
    ensures { result ≡ plan_spec.plic_size_of p.now }
{
    let items = p.items.items();
    PlicSize {
        sources: number_of("numberOfSources", 0, items) as u8,
        contexts: number_of("numberOfContexts", 1, items) as u8,
    }
}

/// The sources and contexts of the interrupt controller, where there is one.
fn plic_of(all: &[Peripheral]) -> Option<PlicSize>
    requires { IsTested all.now }
    ensures { result ≡ plan_spec.plic_of all.now }
{
    match first_with(PeripheralType::Plic, all) {
        Some(plic) => Some(plic_size_of(plic)),
        None => None,
    }
}

/// Instructions in a microsecond of all processors, which are equally fast.
fn speed_of_all(all: &[Peripheral]) -> u32
    requires { IsTested all.now }
    ensures { result ≡ sum_by processor.speed_of all.now }
{
    match first_with(PeripheralType::Cpu, all) {
        Some(first) => count_of(all, PeripheralType::Cpu) as u32 * speed_of(first),
        None => 0,
    }
}

/// The optional extensions of the processors.
fn letters_of(all: &[Peripheral]) -> Letters
    ensures { result ≡ plan_spec.letters_of all.now }
{
    match first_letters(all) {
        Some(letters) => letters,
        None => Letters { a: false, c: false },
    }
}

/// The lists of a plan, apart from its wires.
#[derive(Drop)]
struct Lists {
    names: Rows<Named>,
    regions: Rows<Region>,
    memories: Rows<u32>,
    kinds: Rows<Kind>,
    cpus: Rows<Text>,
}

fn lists_of(alloc: Global, all: &[Peripheral]) -> Result<Lists, PlatFault>
    requires { AreFew all.now }
    ensures names { IfOk result (λ lists. lists.names ≡ plan_spec.each plan_spec.name_of [] all.now) }
    ensures regions { IfOk result
        (λ lists. lists.regions ≡ plan_spec.each plan_spec.region_of [] all.now) }
    ensures memories { IfOk result (λ lists. lists.memories ≡ plan_spec.memories_of all.now) }
    ensures kinds { IfOk result (λ lists. lists.kinds ≡ plan_spec.kinds_of all.now) }
    ensures cpus { IfOk result (λ lists. lists.cpus ≡ processor.cpus_of all.now) }
    ensures err { IfErr result (λ fault. fault ≡ PlatFault.Memory) }
{
    let names = names_of(alloc, all)?;
    let regions = regions_of(alloc, all)?;
    let memories = memories_of(alloc, all)?;
    let kinds = kinds_of(alloc, all)?;
    let cpus = cpus_of(alloc, all)?;
    Ok(Lists {
        names,
        regions,
        memories,
        kinds,
        cpus,
    })
}

/// The plan of peripherals that keep all rules, or the fault of the first wire that cannot be.
pub(crate) fn plan_of(alloc: Global, all: &[Peripheral]) -> Result<BoardPlan, PlatFault>
    requires { IsTested all.now }
    ensures { plan_spec.Gives result (plan_spec.plan_of all.now) }
{
    let plic = plic_of(all);
    let wires = wires_of(alloc, plic, all)?;
    let lists = lists_of(alloc, all)?;
    Ok(BoardPlan {
        names: lists.names,
        regions: lists.regions,
        memories: lists.memories,
        kinds: lists.kinds,
        frequency: frequency_of(all),
        plic,
        wires,
        speed: speed_of_all(all),
        cpus: lists.cpus,
        letters: letters_of(all),
    })
}
