//! Changes of plans, one part at a time.
use dev_core::Kind;
use lab_num::{NoMemory, Rows, Text};
use sample_boards::names_of;
use std::alloc::Global;
use sys_bus::{BoardPlan, NamedWhat, Region, Wire};

pub fn set_names(
    plan: &mut BoardPlan,
    alloc: Global,
    names: &[(&str, NamedWhat)],
) -> Result<(), NoMemory> {
    plan.names = names_of(alloc, names)?;
    Ok(())
}

pub fn set_cpus(plan: &mut BoardPlan, alloc: Global, names: &[&str]) -> Result<(), NoMemory> {
    let mut cpus = Vec::new(alloc);
    for &name in names {
        cpus.push(Text::of(alloc, name)?)?;
    }
    plan.cpus = Rows::of(cpus);
    Ok(())
}

pub fn set_regions(
    plan: &mut BoardPlan,
    alloc: Global,
    regions: &[Region],
) -> Result<(), NoMemory> {
    plan.regions = Rows::of(Vec::from_slice(alloc, regions)?);
    Ok(())
}

pub fn set_memories(plan: &mut BoardPlan, alloc: Global, sizes: &[u32]) -> Result<(), NoMemory> {
    plan.memories = Rows::of(Vec::from_slice(alloc, sizes)?);
    Ok(())
}

pub fn set_kinds(plan: &mut BoardPlan, alloc: Global, kinds: &[Kind]) -> Result<(), NoMemory> {
    plan.kinds = Rows::of(Vec::from_slice(alloc, kinds)?);
    Ok(())
}

pub fn set_wires(plan: &mut BoardPlan, alloc: Global, wires: &[Wire]) -> Result<(), NoMemory> {
    plan.wires = Rows::of(Vec::from_slice(alloc, wires)?);
    Ok(())
}
