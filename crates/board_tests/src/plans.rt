//! Plans of boards that are right or nearly right.
use crate::parts::{set_cpus, set_kinds, set_memories, set_names, set_regions, set_wires};
use dev_core::Kind;
use lab_num::NoMemory;
use rv_hart::Letters;
use sample_boards::{
    HARTS_NAMES, MEMORIES, SMALL_KINDS, SMALL_NAMES, SMALL_REGIONS, USUAL_REGIONS, harts_board,
    small_board, usual_board,
};
use std::alloc::Global;
use std::process::Abort;
use std::test::Fail;
use sys_bus::{BoardPlan, NamedWhat, PlicSize, Region, RegionKind, Wire, WireFrom, WirePin};

/// What is another in the plan of a board.
#[derive(Clone, Copy)]
enum Change {
    /// How many names, regions, memories and devices of the small board there are.
    Counts(usize, usize, usize, usize),
    /// An entry of the small board, its name and what it is, and the name of the processor.
    Name(usize, &'static str, NamedWhat, &'static str),
    /// How many processors have entries, the names of those that there are, and the speed of all together.
    Processors(usize, &'static [&'static str], u32),
    /// A region of the small board, its base, size and step, and the size of the memory.
    SmallRange(usize, u32, u32, u8, u32),
    /// A region of the usual board, its base and size.
    UsualRange(usize, u32, u32),
    /// The frequency, sources, contexts and speed of the usual board.
    Numbers(Option<u32>, u8, u8, u32),
    /// The only wire of the usual board, or of the small one.
    UsualWire(WireFrom, WirePin),
    SmallWire(WireFrom, WirePin),
    /// The devices of the small board.
    Kinds(Kind, Kind),
}

type Row = (Change, bool);

/// A board has as many names as parts, and as many memories and devices as regions of them.
static COUNTS: [Row; 5] = [
    (Change::Counts(4, 3, 1, 2), true),
    (Change::Counts(3, 3, 1, 2), false),
    (Change::Counts(4, 2, 1, 2), false),
    (Change::Counts(4, 3, 0, 2), false),
    (Change::Counts(4, 3, 1, 1), false),
];

/// Names are apart, have their form, and are those of the parts and processors that there are.
static NAMES: [Row; 11] = [
    (
        Change::Name(1, "Uart_0", NamedWhat::Part(RegionKind::Dev(0)), "cpu"),
        true,
    ),
    (
        Change::Name(1, "ram", NamedWhat::Part(RegionKind::Dev(0)), "cpu"),
        false,
    ),
    (
        Change::Name(1, "", NamedWhat::Part(RegionKind::Dev(0)), "cpu"),
        false,
    ),
    (
        Change::Name(1, "0uart", NamedWhat::Part(RegionKind::Dev(0)), "cpu"),
        false,
    ),
    (
        Change::Name(1, "_uart", NamedWhat::Part(RegionKind::Dev(0)), "cpu"),
        false,
    ),
    (
        Change::Name(1, "uart-0", NamedWhat::Part(RegionKind::Dev(0)), "cpu"),
        false,
    ),
    (Change::Name(3, "hart", NamedWhat::Cpu, "cpu"), false),
    (Change::Name(3, "hart", NamedWhat::Cpu, "hart"), true),
    (Change::Name(1, "uart", NamedWhat::Cpu, "cpu"), false),
    (
        Change::Name(1, "uart", NamedWhat::Part(RegionKind::Dev(1)), "cpu"),
        false,
    ),
    (
        Change::Name(1, "uart", NamedWhat::Part(RegionKind::Clint), "cpu"),
        false,
    ),
];

/// Each processor has its name, and their speeds are alike.
static PROCESSORS: [Row; 14] = [
    (Change::Processors(1, &["cpu0"], 1000), true),
    (Change::Processors(1, &["cpu0"], 1001), false),
    (Change::Processors(1, &[], 1), false),
    (Change::Processors(2, &["cpu0", "cpu1"], 2), true),
    (Change::Processors(2, &["cpu0", "cpu1"], 1000), true),
    (Change::Processors(2, &["cpu0", "cpu1"], 3), false),
    (Change::Processors(2, &["cpu1", "cpu0"], 2), false),
    (Change::Processors(2, &["cpu0"], 2), false),
    (Change::Processors(2, &["cpu0", "cpu1", "cpu2"], 6), false),
    (Change::Processors(3, &["cpu0", "cpu1", "cpu2"], 999), true),
    (
        Change::Processors(3, &["cpu0", "cpu1", "cpu2"], 1000),
        false,
    ),
    (
        Change::Processors(4, &["cpu0", "cpu1", "cpu2", "cpu3"], 4),
        true,
    ),
    (
        Change::Processors(4, &["cpu0", "cpu1", "cpu2", "cpu2"], 4),
        false,
    ),
    (
        Change::Processors(4, &["cpu0", "cpu1", "cpu2", "cpu3"], 0),
        false,
    ),
];

/// Regions lie apart, below 2^32 and within their limits.
static SMALL_RANGES: [Row; 17] = [
    (
        Change::SmallRange(0, 0xFFFF_0000, 0x1_0000, 1, 0x1_0000),
        true,
    ),
    (
        Change::SmallRange(0, 0xFFFF_0004, 0x1_0000, 1, 0x1_0000),
        false,
    ),
    (
        Change::SmallRange(0, 0x8000_0004, 0x1_0000, 1, 0x1_0000),
        true,
    ),
    (
        Change::SmallRange(0, 0x8000_0002, 0x1_0000, 1, 0x1_0000),
        false,
    ),
    (
        Change::SmallRange(0, 0x8000_0000, 0x1_0000, 1, 0x1_1000),
        false,
    ),
    (
        Change::SmallRange(0, 0x8000_0000, 0x1_0004, 1, 0x1_0004),
        false,
    ),
    (Change::SmallRange(0, 0x8000_0000, 0x0, 1, 0x0), false),
    (
        Change::SmallRange(0, 0x8000_0000, 0x400_0000, 1, 0x400_0000),
        true,
    ),
    (
        Change::SmallRange(0, 0x8000_0000, 0x400_1000, 1, 0x400_1000),
        false,
    ),
    (Change::SmallRange(1, 0x1000_0000, 0x8, 1, 0x1_0000), true),
    (Change::SmallRange(1, 0x1000_0000, 0x4, 1, 0x1_0000), false),
    (Change::SmallRange(1, 0x1000_0000, 0x20, 4, 0x1_0000), true),
    (Change::SmallRange(1, 0x1000_0000, 0x1C, 4, 0x1_0000), false),
    (
        Change::SmallRange(1, 0x1000_0000, 0x100, 2, 0x1_0000),
        false,
    ),
    (Change::SmallRange(2, 0x1000_0100, 0x4, 1, 0x1_0000), true),
    (Change::SmallRange(2, 0x1000_00FC, 0x4, 1, 0x1_0000), false),
    (Change::SmallRange(2, 0x10_0000, 0x20, 4, 0x1_0000), false),
];

/// The same of the timer and the interrupt controller.
static USUAL_RANGES: [Row; 4] = [
    (Change::UsualRange(1, 0x200_0000, 0xC000), true),
    (Change::UsualRange(1, 0x200_0000, 0xBFFC), false),
    (Change::UsualRange(2, 0xC00_0000, 0x21_0000), true),
    (Change::UsualRange(2, 0xC00_0000, 0x20_FFFC), false),
];

/// Numbers have their limits.
static NUMBERS: [Row; 12] = [
    (Change::Numbers(Some(1), 1, 1, 1), true),
    (Change::Numbers(Some(1_000_000_000), 127, 15, 1000), true),
    (Change::Numbers(None, 31, 1, 25), false),
    (Change::Numbers(Some(0), 31, 1, 25), false),
    (Change::Numbers(Some(1_000_000_001), 31, 1, 25), false),
    (Change::Numbers(Some(1), 0, 1, 25), false),
    (Change::Numbers(Some(1), 128, 1, 25), false),
    (Change::Numbers(Some(1), 31, 0, 25), false),
    (Change::Numbers(Some(1), 31, 16, 25), false),
    (Change::Numbers(Some(1), 31, 1, 0), false),
    (Change::Numbers(Some(1), 31, 1, 1001), false),
    (Change::Numbers(Some(1), 31, 1, 25), true),
];

/// There is one finisher at most.
static KINDS: [Row; 3] = [
    (Change::Kinds(Kind::Can, Kind::Finisher), true),
    (Change::Kinds(Kind::Can, Kind::Can), true),
    (Change::Kinds(Kind::Finisher, Kind::Finisher), false),
];

/// Each row: a wire, and whether the usual board and the small one may have it.
static WIRES: [(WireFrom, WirePin, bool, bool); 16] = [
    (
        WireFrom::Soft,
        WirePin::Cpu { hart: 0, pin: 3 },
        true,
        false,
    ),
    (
        WireFrom::Timer,
        WirePin::Cpu { hart: 0, pin: 7 },
        true,
        false,
    ),
    (
        WireFrom::Timer,
        WirePin::Cpu { hart: 0, pin: 8 },
        false,
        false,
    ),
    (
        WireFrom::Soft,
        WirePin::Cpu { hart: 1, pin: 3 },
        false,
        false,
    ),
    (WireFrom::Soft, WirePin::Source(1), false, false),
    (WireFrom::Timer, WirePin::Source(1), false, false),
    (
        WireFrom::Context(0),
        WirePin::Cpu { hart: 0, pin: 11 },
        true,
        false,
    ),
    (
        WireFrom::Context(1),
        WirePin::Cpu { hart: 0, pin: 11 },
        false,
        false,
    ),
    (WireFrom::Context(0), WirePin::Source(1), false, false),
    (
        WireFrom::Dev(0),
        WirePin::Cpu { hart: 0, pin: 11 },
        true,
        true,
    ),
    (
        WireFrom::Dev(0),
        WirePin::Cpu { hart: 0, pin: 0 },
        false,
        false,
    ),
    (WireFrom::Dev(0), WirePin::Source(1), true, false),
    (WireFrom::Dev(0), WirePin::Source(31), true, false),
    (WireFrom::Dev(0), WirePin::Source(0), false, false),
    (WireFrom::Dev(0), WirePin::Source(32), false, false),
    (
        WireFrom::Dev(1),
        WirePin::Cpu { hart: 0, pin: 3 },
        false,
        false,
    ),
];

/// The board whose plan is changed.
fn start(alloc: Global, change: Change) -> Result<BoardPlan, NoMemory> {
    let letters = Letters { a: false, c: false };
    match change {
        Change::UsualRange(..) | Change::Numbers(..) | Change::UsualWire(..) => usual_board(alloc),
        Change::Processors(harts, _, speed) => harts_board(alloc, harts, letters, speed),
        _ => small_board(alloc),
    }
}

fn with_range(region: Region, base: u32, size: u32, step: u8) -> Region {
    Region {
        base,
        size,
        kind: region.kind,
        step,
    }
}

fn set_counts(
    plan: &mut BoardPlan,
    alloc: Global,
    [names, regions, memories, kinds]: [usize; 4],
) -> Result<(), NoMemory> {
    set_names(plan, alloc, &SMALL_NAMES[..names.min(4)])?;
    set_regions(plan, alloc, &SMALL_REGIONS[..regions.min(3)])?;
    set_memories(plan, alloc, &MEMORIES[..memories.min(1)])?;
    set_kinds(plan, alloc, &SMALL_KINDS[..kinds.min(2)])
}

fn set_entries(
    plan: &mut BoardPlan,
    alloc: Global,
    names: &[(&str, NamedWhat)],
    cpus: &[&str],
) -> Result<(), NoMemory> {
    set_names(plan, alloc, names)?;
    set_cpus(plan, alloc, cpus)
}

fn set_small_range(
    plan: &mut BoardPlan,
    alloc: Global,
    regions: &[Region],
    memory: u32,
) -> Result<(), NoMemory> {
    set_regions(plan, alloc, regions)?;
    set_memories(plan, alloc, &[memory])
}

fn set_numbers(plan: &mut BoardPlan, frequency: Option<u32>, size: PlicSize, speed: u32) {
    plan.frequency = frequency;
    plan.plic = Some(size);
    plan.speed = speed;
}

fn make(plan: &mut BoardPlan, alloc: Global, change: Change) -> Result<(), NoMemory> {
    match change {
        Change::Counts(names, regions, memories, kinds) => {
            set_counts(plan, alloc, [names, regions, memories, kinds])
        }
        Change::Name(i, name, what, cpu) => {
            let mut names = SMALL_NAMES;
            names[i % 4] = (name, what);
            set_entries(plan, alloc, &names, &[cpu])
        }
        Change::Processors(harts, cpus, _) => {
            set_entries(plan, alloc, &HARTS_NAMES[..3 + harts.min(4)], cpus)
        }
        Change::SmallRange(i, base, size, step, memory) => {
            let mut regions = SMALL_REGIONS;
            regions[i % 3] = with_range(regions[i % 3], base, size, step);
            set_small_range(plan, alloc, &regions, memory)
        }
        Change::UsualRange(i, base, size) => {
            let mut regions = USUAL_REGIONS;
            regions[i % 4] = with_range(regions[i % 4], base, size, 1);
            set_regions(plan, alloc, &regions)
        }
        Change::Numbers(frequency, sources, contexts, speed) => {
            set_numbers(plan, frequency, PlicSize { sources, contexts }, speed);
            Ok(())
        }
        Change::UsualWire(from, pin) | Change::SmallWire(from, pin) => {
            set_wires(plan, alloc, &[Wire { from, pin }])
        }
        Change::Kinds(first, second) => set_kinds(plan, alloc, &[first, second]),
    }
}

fn is_valid_with(alloc: Global, change: Change) -> Result<bool, NoMemory> {
    let mut plan = start(alloc, change)?;
    make(&mut plan, alloc, change)?;
    Ok(plan.is_valid())
}

fn assert_rows(rt: &impl Abort, alloc: Global, rows: &[Row]) -> Result<(), NoMemory> {
    for (place, &(change, valid)) in rows.iter().enumerate() {
        let is_valid = is_valid_with(alloc, change)?;
        assert!(rt; is_valid == valid, "row {place}");
    }
    Ok(())
}

fn assert_wires(
    rt: &impl Abort,
    alloc: Global,
    rows: &[(WireFrom, WirePin, bool, bool)],
) -> Result<(), NoMemory> {
    for (place, &(from, pin, on_usual, on_small)) in rows.iter().enumerate() {
        let usual = is_valid_with(alloc, Change::UsualWire(from, pin))?;
        let small = is_valid_with(alloc, Change::SmallWire(from, pin))?;
        assert!(rt; (usual, small) == (on_usual, on_small), "row {place}");
    }
    Ok(())
}

#[test]
fn a_plan_is_valid_where_each_part_is_within_its_limits(rt: HostRuntime) -> Result<(), Fail> {
    for rows in [
        &COUNTS[..],
        &NAMES,
        &PROCESSORS,
        &SMALL_RANGES,
        &USUAL_RANGES,
        &NUMBERS,
        &KINDS,
    ] {
        assert_rows(&rt, rt.alloc(), rows)?;
    }
    assert_wires(&rt, rt.alloc(), &WIRES)?;
    Ok(())
}
