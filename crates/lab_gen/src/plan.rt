//! The plan of every board.
ghost use Rattle.std.specs.Prelude.{◌≡◌, IfOk};
ghost use Rattle.lab_gen.specs.Plan as plan_spec;

use dev_core::Kind;
use lab_num::{NoMemory, Rows, Text};
use rv_hart::Letters;
use std::alloc::Global;
use sys_bus::{BoardPlan, Named, NamedWhat, Region, RegionKind};

/// Where the memory and the UART stand.
const REGIONS: [Region; 2] = [
    Region {
        base: 0x8000_0000,
        size: 0x1_0000,
        kind: RegionKind::Ram(0),
        step: 1,
    },
    Region {
        base: 0x1000_0000,
        size: 0x100,
        kind: RegionKind::Dev(0),
        step: 1,
    },
];

/// A name of a part.
fn named(alloc: Global, name: &str, what: NamedWhat) -> Result<Named, NoMemory>
    ensures { IfOk result (λ named. named ≡ record { name = name.now; what = what }) }
{
    let name = Text::of(alloc, name)?;
    Ok(Named { name, what })
}

/// The names of the parts.
fn names(alloc: Global) -> Result<Rows<Named>, NoMemory>
    ensures { IfOk result (λ names. names ≡ plan_spec.plan.names) }
{
    let ram = named(alloc, "ram", NamedWhat::Part(RegionKind::Ram(0)))?;
    let uart = named(alloc, "uart", NamedWhat::Part(RegionKind::Dev(0)))?;
    let cpu = named(alloc, "cpu", NamedWhat::Cpu)?;
    Ok(Rows::of(vec![in alloc; ram, uart, cpu]?))
}

/// The plan of every board: a memory of 64 KiB, a UART, and 10 instructions a microsecond.
pub(crate) fn plan(alloc: Global) -> Result<BoardPlan, NoMemory>
    ensures { IfOk result (λ made. made ≡ plan_spec.plan) }
{
    Ok(BoardPlan {
        names: names(alloc)?,
        regions: Rows::of(REGIONS.to_vec(alloc)?),
        memories: Rows::of(vec![in alloc; 0x1_0000]?),
        kinds: Rows::of(vec![in alloc; Kind::Uart]?),
        frequency: None,
        plic: None,
        wires: Rows::of(Vec::new(alloc)),
        speed: 10,
        cpus: Rows::of(vec![in alloc; Text::of(alloc, "cpu")?]?),
        letters: Letters { a: false, c: false },
    })
}
