//! The board that is measured.
ghost use Rattle.std.specs.Prelude.{◌≡◌, ◌∷◌, [], IfSome};
ghost use Rattle.dev_core.specs.declared.kind.Kind.TheVariants.{Uart, Finisher};
ghost use Rattle.board.specs.New.{first_state};
ghost use Rattle.sys_bus.specs.Plan.{IsValid};

use board::Board;
use dev_core::{Device, Kind};
use lab_num::{BoardNo, Rows, Text};
use rv_hart::Letters;
use std::alloc::Global;
use sys_bus::{BoardPlan, Named, NamedWhat, PlicSize, Region, RegionKind, Wire, WireFrom, WirePin};

/// The parts of the board in order, with their names and regions: 64 KiB of memory, a UART and a
/// finisher, and those that a wired board has besides.
const PARTS: [(&str, RegionKind, u32, u32); 5] = [
    ("ram", RegionKind::Ram(0), 0x8000_0000, 0x1_0000),
    ("uart", RegionKind::Dev(0), 0x1000_0000, 0x100),
    ("fin", RegionKind::Dev(1), 0x0010_0000, 0x1000),
    ("clint", RegionKind::Clint, 0x0200_0000, 0x1_0000),
    ("plic", RegionKind::Plic, 0x0C00_0000, 0x0400_0000),
];

/// The wires of a wired board.
const WIRES: [Wire; 4] = [
    Wire {
        from: WireFrom::Soft,
        pin: WirePin::Cpu { hart: 0, pin: 3 },
    },
    Wire {
        from: WireFrom::Timer,
        pin: WirePin::Cpu { hart: 0, pin: 7 },
    },
    Wire {
        from: WireFrom::Context(0),
        pin: WirePin::Cpu { hart: 0, pin: 11 },
    },
    Wire {
        from: WireFrom::Dev(0),
        pin: WirePin::Source(10),
    },
];

/// The names of the processors.
const CPUS: [&str; 4] = ["cpu0", "cpu1", "cpu2", "cpu3"];

/// What sets the boards apart that are measured.
#[derive(Clone, Copy)]
pub struct Form {
    /// Whether there are a timer, an interrupt controller and wires.
    pub wired: bool,
    /// How many processors there are, one to four.
    pub harts: usize,
    pub letters: Letters,
}

/// How many of the parts a board has.
fn count_of_parts(wired: bool) -> usize {
    if wired { PARTS.len() } else { 3 }
}

fn part_names(alloc: Global, wired: bool) -> Option<Vec<Named>> {
    let mut names = Vec::new(alloc);
    for (name, kind, _, _) in PARTS.into_iter().take(count_of_parts(wired)) {
        let what = NamedWhat::Part(kind);
        let name = Text::of(alloc, name).ok()?;
        names.push(Named { name, what }).ok()?;
    }
    Some(names)
}

/// The names of the parts, and behind them those of the processors.
fn names(alloc: Global, form: Form) -> Option<Vec<Named>> {
    let mut names = part_names(alloc, form.wired)?;
    for name in CPUS.into_iter().take(form.harts) {
        let what = NamedWhat::Cpu;
        let name = Text::of(alloc, name).ok()?;
        names.push(Named { name, what }).ok()?;
    }
    Some(names)
}

fn cpus(alloc: Global, harts: usize) -> Option<Vec<Text>> {
    let mut cpus = Vec::new(alloc);
    for name in CPUS.into_iter().take(harts) {
        cpus.push(Text::of(alloc, name).ok()?).ok()?;
    }
    Some(cpus)
}

fn regions(alloc: Global, wired: bool) -> Option<Vec<Region>> {
    let mut regions = Vec::new(alloc);
    for (_, kind, base, size) in PARTS.into_iter().take(count_of_parts(wired)) {
        let step = 1;
        let region = Region {
            base,
            size,
            kind,
            step,
        };
        regions.push(region).ok()?;
    }
    Some(regions)
}

fn wires(alloc: Global, wired: bool) -> Option<Vec<Wire>> {
    let mut wires = Vec::new(alloc);
    if wired {
        wires.extend(WIRES).ok()?;
    }
    Some(wires)
}

/// The plan of the board, which takes 24 instructions a microsecond.
fn plan(alloc: Global, form: Form) -> Option<BoardPlan>
    ensures { IfSome result (λ plan. plan.kinds ≡ Uart ∷ Finisher ∷ []) }
{
    let wired = form.wired;
    Some(BoardPlan {
        names: Rows::of(names(alloc, form)?),
        regions: Rows::of(regions(alloc, wired)?),
        memories: Rows::of(vec![in alloc; 0x1_0000].ok()?),
        kinds: Rows::of(vec![in alloc; Kind::Uart, Kind::Finisher].ok()?),
        frequency: wired.then_some(1_000_000),
        plic: wired.then_some(PlicSize {
            sources: 31,
            contexts: 1,
        }),
        wires: Rows::of(wires(alloc, wired)?),
        speed: 24,
        cpus: Rows::of(cpus(alloc, form.harts)?),
        letters: form.letters,
    })
}

/// The plan of the board, if it is one that a board can have.
fn valid_plan(alloc: Global, form: Form) -> Option<BoardPlan>
    ensures kinds { IfSome result (λ plan. plan.kinds ≡ Uart ∷ Finisher ∷ []) }
    ensures valid { IfSome result (λ plan. IsValid plan) }
{
    let plan = plan(alloc, form)?;
    plan.is_valid().then_some(plan)
}

/// The two devices in their order.
fn both<D: Device>(alloc: Global, uart: D, finisher: D) -> Option<Vec<D>>
    ensures { IfSome result (λ devices. devices.items ≡ uart ∷ finisher ∷ []) }
{
    let mut devices = Vec::new(alloc);
    devices.push(uart).ok()?;
    devices.push(finisher).ok()?;
    Some(devices)
}

/// A new board of this form with these devices.
pub fn board_of<D: Device>(alloc: Global, form: Form, uart: D, finisher: D) -> Option<Board<D>>
    requires uart { D.meaning uart ≡ first_state Uart }
    requires finisher { D.meaning finisher ≡ first_state Finisher }
{
    let devices = both(alloc, uart, finisher)?;
    let plan = valid_plan(alloc, form)?;
    Board::new(alloc, BoardNo(0), plan, devices).ok()
}
