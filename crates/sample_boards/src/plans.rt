//! Plans of boards, and their parts.
use dev_core::Kind;
use lab_num::{NoMemory, Rows, Text};
use rv_hart::Letters;
use std::alloc::Global;
use sys_bus::{BoardPlan, Named, NamedWhat, PlicSize, Region, RegionKind};

pub const RAM: Region = Region {
    base: 0x8000_0000,
    size: 0x1_0000,
    kind: RegionKind::Ram(0),
    step: 1,
};

pub const UART: Region = Region {
    base: 0x1000_0000,
    size: 0x100,
    kind: RegionKind::Dev(0),
    step: 1,
};

pub const FINISHER: Region = Region {
    base: 0x10_0000,
    size: 0x1000,
    kind: RegionKind::Dev(1),
    step: 1,
};

pub const CLINT: Region = Region {
    base: 0x200_0000,
    size: 0x1_0000,
    kind: RegionKind::Clint,
    step: 1,
};

pub const PLIC: Region = Region {
    base: 0xC00_0000,
    size: 0x400_0000,
    kind: RegionKind::Plic,
    step: 1,
};

pub const SMALL_NAMES: [(&str, NamedWhat); 4] = [
    ("ram", NamedWhat::Part(RegionKind::Ram(0))),
    ("uart", NamedWhat::Part(RegionKind::Dev(0))),
    ("fin", NamedWhat::Part(RegionKind::Dev(1))),
    ("cpu", NamedWhat::Cpu),
];

/// Those of the small board, with four processors.
pub const HARTS_NAMES: [(&str, NamedWhat); 7] = [
    ("ram", NamedWhat::Part(RegionKind::Ram(0))),
    ("uart", NamedWhat::Part(RegionKind::Dev(0))),
    ("fin", NamedWhat::Part(RegionKind::Dev(1))),
    ("cpu0", NamedWhat::Cpu),
    ("cpu1", NamedWhat::Cpu),
    ("cpu2", NamedWhat::Cpu),
    ("cpu3", NamedWhat::Cpu),
];

pub const SMALL_REGIONS: [Region; 3] = [RAM, UART, FINISHER];

pub const SMALL_KINDS: [Kind; 2] = [Kind::Uart, Kind::Finisher];

pub const MEMORIES: [u32; 1] = [0x1_0000];

pub const USUAL_NAMES: [(&str, NamedWhat); 5] = [
    ("ram", NamedWhat::Part(RegionKind::Ram(0))),
    ("clint", NamedWhat::Part(RegionKind::Clint)),
    ("plic", NamedWhat::Part(RegionKind::Plic)),
    ("uart", NamedWhat::Part(RegionKind::Dev(0))),
    ("cpu", NamedWhat::Cpu),
];

pub const USUAL_REGIONS: [Region; 4] = [RAM, CLINT, PLIC, UART];

pub const USUAL_KINDS: [Kind; 1] = [Kind::Uart];

/// The names of the parts of a board.
pub fn names_of(alloc: Global, names: &[(&str, NamedWhat)]) -> Result<Rows<Named>, NoMemory> {
    let mut list = Vec::new(alloc);
    for &(name, what) in names {
        let name = Text::of(alloc, name)?;
        list.push(Named { name, what })?;
    }
    Ok(Rows::of(list))
}

/// The names of the processors among these.
pub fn cpus_of(alloc: Global, names: &[(&str, NamedWhat)]) -> Result<Rows<Text>, NoMemory> {
    let mut cpus = Vec::new(alloc);
    for &(name, what) in names {
        if what == NamedWhat::Cpu {
            cpus.push(Text::of(alloc, name)?)?;
        }
    }
    Ok(Rows::of(cpus))
}

/// What stands at the addresses of a board.
#[derive(Drop)]
struct Parts {
    regions: Rows<Region>,
    memories: Rows<u32>,
    kinds: Rows<Kind>,
}

/// A memory of 64 KiB, and devices of these kinds.
fn parts_of(alloc: Global, regions: &[Region], kinds: &[Kind]) -> Result<Parts, NoMemory> {
    let regions = regions.to_vec(alloc)?;
    let memories = MEMORIES.to_vec(alloc)?;
    let kinds = kinds.to_vec(alloc)?;
    Ok(Parts {
        regions: Rows::of(regions),
        memories: Rows::of(memories),
        kinds: Rows::of(kinds),
    })
}

/// A board of these parts without timer, interrupt controller and wires, at one instruction a microsecond.
fn board_of(
    alloc: Global,
    names: &[(&str, NamedWhat)],
    regions: &[Region],
    kinds: &[Kind],
) -> Result<BoardPlan, NoMemory> {
    let cpus = cpus_of(alloc, names)?;
    let names = names_of(alloc, names)?;
    let parts = parts_of(alloc, regions, kinds)?;
    Ok(BoardPlan {
        names,
        regions: parts.regions,
        memories: parts.memories,
        kinds: parts.kinds,
        frequency: None,
        plic: None,
        wires: Rows::of(Vec::new(alloc)),
        speed: 1,
        cpus,
        letters: Letters { a: false, c: false },
    })
}

/// A board with a memory of 64 KiB, a UART and a finisher, at one instruction a microsecond.
pub fn small_board(alloc: Global) -> Result<BoardPlan, NoMemory> {
    board_of(alloc, &SMALL_NAMES, &SMALL_REGIONS, &SMALL_KINDS)
}

/// A board with the same memory, a timer of a megahertz, an interrupt controller of 31 sources and a
/// UART, without wires.
pub fn usual_board(alloc: Global) -> Result<BoardPlan, NoMemory> {
    let mut plan = board_of(alloc, &USUAL_NAMES, &USUAL_REGIONS, &USUAL_KINDS)?;
    plan.frequency = Some(1_000_000);
    plan.plic = Some(PlicSize {
        sources: 31,
        contexts: 1,
    });
    plan.speed = 25;
    Ok(plan)
}

/// The small board with one to four processors of these letters, at so many instructions a microsecond of all together.
pub fn harts_board(
    alloc: Global,
    harts: usize,
    letters: Letters,
    speed: u32,
) -> Result<BoardPlan, NoMemory> {
    let names = &HARTS_NAMES[..3 + harts.min(4)];
    let mut plan = board_of(alloc, names, &SMALL_REGIONS, &SMALL_KINDS)?;
    plan.letters = letters;
    plan.speed = speed;
    Ok(plan)
}
