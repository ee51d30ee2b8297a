//! Turns that end within a microsecond, where no script can end one.
ghost use Rattle.std.specs.Prelude.{◌≡◌, ◌∷◌, [], IfOk};
ghost use Rattle.dev_core.specs.declared.kind.Kind.TheVariants.{Uart as uart};

use crate::parts::{set_cpus, set_names, set_wires};
use board::{Board, SlotAt, Turn};
use dev_core::{Kind, Payload, Taken};
use lab_num::{BoardNo, Micros, NoMemory, Rows};
use rv_hart::Letters;
use sample_boards::usual_board;
use std::alloc::Global;
use std::process::Abort;
use std::test::Fail;
use sys_bus::{BoardPlan, NamedWhat, PlicSize, RegionKind, Wire, WireFrom, WirePin};
use uart_16550::Uart;

const BASE: u32 = 0x8000_0000;

/// Where the second program stands.
const SECOND: u32 = BASE + 0x80;

const PLAIN: Letters = Letters { a: false, c: false };

const ATOMIC: Letters = Letters { a: true, c: false };

const ATOMIC_HALVES: Letters = Letters { a: true, c: true };

const NAMES: [(&str, NamedWhat); 8] = [
    ("ram", NamedWhat::Part(RegionKind::Ram(0))),
    ("clint", NamedWhat::Part(RegionKind::Clint)),
    ("plic", NamedWhat::Part(RegionKind::Plic)),
    ("uart", NamedWhat::Part(RegionKind::Dev(0))),
    ("cpu0", NamedWhat::Cpu),
    ("cpu1", NamedWhat::Cpu),
    ("cpu2", NamedWhat::Cpu),
    ("cpu3", NamedWhat::Cpu),
];

const CPUS: [&str; 4] = ["cpu0", "cpu1", "cpu2", "cpu3"];

/// The UART leads to source 10 of the interrupt controller, that to the first processor, and the timer to the first
/// two, if there are two.
const WIRES: [Wire; 4] = [
    Wire {
        from: WireFrom::Dev(0),
        pin: WirePin::Source(10),
    },
    Wire {
        from: WireFrom::Context(0),
        pin: WirePin::Cpu { hart: 0, pin: 11 },
    },
    Wire {
        from: WireFrom::Timer,
        pin: WirePin::Cpu { hart: 0, pin: 7 },
    },
    Wire {
        from: WireFrom::Timer,
        pin: WirePin::Cpu { hart: 1, pin: 7 },
    },
];

/// The usual board with one to four processors of these letters, at so many instructions a microsecond of all together.
fn plan(alloc: Global, harts: usize, letters: Letters, speed: u32) -> Result<BoardPlan, NoMemory>
    ensures { IfOk result (λ plan. plan.kinds ≡ uart ∷ []) }
{
    let kinds = Rows::of(vec![in alloc; Kind::Uart]?);
    let mut plan = usual_board(alloc)?;
    set_names(&mut plan, alloc, &NAMES[..4 + harts.min(4)])?;
    set_cpus(&mut plan, alloc, &CPUS[..harts.min(4)])?;
    set_wires(&mut plan, alloc, &WIRES[..2 + harts.min(2)])?;
    plan.plic = Some(PlicSize {
        sources: 31,
        contexts: 1,
    });
    plan.letters = letters;
    plan.speed = speed;
    plan.kinds = kinds;
    Ok(plan)
}

fn start(
    rt: &impl Abort,
    alloc: Global,
    harts: usize,
    letters: Letters,
    speed: u32,
) -> Result<Board<Uart>, Fail> {
    let uarts = vec![in alloc; Uart::new()]?;
    let plan = plan(alloc, harts, letters, speed)?;
    assert!(rt; plan.is_valid());
    match Board::new(alloc, BoardNo(0), plan, uarts) {
        Ok(board) => Ok(board),
        Err(_) => Err(Fail::from(NoMemory)),
    }
}

// ---- what a test does to a board

fn has(board: &Board<Uart>, hart: u8) -> bool {
    usize::from(hart) < board.plan().cpus.items().len()
}

/// Puts a program into memory.
fn loads(board: &mut Board<Uart>, at: u32, program: &[u32]) -> Result<bool, NoMemory> {
    let mut at = at;
    for word in program {
        if at > BASE + 0x1_0000 || !board.holds(at, 4) {
            return Ok(false);
        }
        board.copy_in(at, &word.to_le_bytes())?;
        at += 4;
    }
    Ok(true)
}

fn goes_to(board: &mut Board<Uart>, hart: u8, pc: u32) -> bool {
    if usize::from(hart) >= board.plan().cpus.items().len() || !board.aligns(pc) {
        return false;
    }
    board.set_pc(hart, pc);
    true
}

/// The same on each processor.
fn all_go_to(board: &mut Board<Uart>, pc: u32) -> bool {
    for hart in 0..4 {
        if has(board, hart) && !goes_to(board, hart, pc) {
            return false;
        }
    }
    true
}

fn halts(board: &mut Board<Uart>, hart: u8, on: bool) -> bool {
    if usize::from(hart) >= board.plan().cpus.items().len() {
        return false;
    }
    board.set_halted(hart, on);
    true
}

/// Whether the board takes so many slots, from one of the grant that begins with the laboratory on.
fn takes(board: &mut Board<Uart>, first: u64, n: u64) -> bool {
    if first > 1_000_000 || n > 1_000_000 || board.posted() >= 1000 || board.entered() >= 1000 {
        return false;
    }
    if (first + n) / u64::from(board.speed()) > 10_000_000_000 {
        return false;
    }
    let at = SlotAt {
        from: Micros(0),
        first,
    };
    board.turn(at, n) == Turn::Used(n)
}

/// Whether it takes them in turns of so many, and the rest in one more.
fn takes_by(board: &mut Board<Uart>, n: u64, each: u64) -> bool {
    if each == 0 {
        return false;
    }
    for i in 0..n / each {
        if !takes(board, i.saturating_mul(each), each) {
            return false;
        }
    }
    let rest = n % each;
    takes(board, n.saturating_sub(rest), rest)
}

/// Whether a register of a processor reads so.
fn reads(board: &Board<Uart>, hart: u8, n: u8, value: u32) -> bool {
    usize::from(hart) < board.plan().cpus.items().len()
        && n < 32
        && board.register(hart, n) == value
}

/// Whether a processor has retired so many instructions.
fn retired(board: &Board<Uart>, hart: u8, count: u64) -> bool {
    usize::from(hart) < board.plan().cpus.items().len() && board.retired(hart) == count
}

/// jal x0, 0
const SELF: [u32; 1] = [0x0000_006F];

// ---- turns

/// csrrs x8, mcycle, x0; csrrs x9, mhartid, x0; jal x0, 0
static READ: [u32; 3] = [0xB000_2473, 0xF140_24F3, 0x0000_006F];

type Turns = (u8, Letters, u32, Option<u8>, [u64; 3], [u64; 4]);

/// Each row: how many processors and their letters, the speed of all, which of them is halted, the lengths
/// of turns, and how many slots each then has taken, where the halted one counts none.
static TURNS: [Turns; 10] = [
    (1, PLAIN, 25, None, [30, 0, 7], [37, 0, 0, 0]),
    (1, ATOMIC, 1, None, [3, 1, 1], [5, 0, 0, 0]),
    (2, PLAIN, 2, None, [1, 1, 5], [4, 3, 0, 0]),
    (
        2,
        ATOMIC,
        1_000,
        None,
        [999, 2, 1_000],
        [1_001, 1_000, 0, 0],
    ),
    (3, PLAIN, 6, None, [4, 4, 3], [4, 4, 3, 0]),
    (4, PLAIN, 4, None, [1, 2, 3], [2, 2, 1, 1]),
    (
        4,
        ATOMIC,
        1_000,
        None,
        [1_001, 0, 1_000],
        [501, 500, 500, 500],
    ),
    (2, PLAIN, 2, Some(1), [3, 3, 1], [4, 0, 0, 0]),
    (3, ATOMIC, 15, Some(0), [10, 11, 12], [0, 11, 11, 0]),
    (4, ATOMIC_HALVES, 28, Some(3), [40, 41, 42], [31, 31, 31, 0]),
];

/// Whether each processor has retired so many instructions.
fn have_retired(board: &Board<Uart>, harts: u8, counts: [u64; 4]) -> bool {
    for hart in 0..4 {
        if hart < harts && !retired(board, hart, counts[usize::from(hart)]) {
            return false;
        }
    }
    true
}

/// Whether each has read so many in mcycle, and its number in mhartid.
fn have_read(board: &Board<Uart>, harts: u8, counts: [u64; 4]) -> bool {
    for hart in 0..4 {
        let cycles = u32::try_from(counts[usize::from(hart)]).unwrap_or(u32::MAX);
        if hart < harts
            && !(reads(board, hart, 8, cycles) && reads(board, hart, 9, u32::from(hart)))
        {
            return false;
        }
    }
    true
}

/// Halts a processor, if one is to be, or lets it run again.
fn halts_one(board: &mut Board<Uart>, halted: Option<u8>, on: bool) -> bool {
    match halted {
        Some(hart) => halts(board, hart, on),
        None => true,
    }
}

fn takes_turns(board: &mut Board<Uart>, row: &Turns) -> Result<bool, NoMemory> {
    let &(harts, _, _, halted, [a, b, c], counts) = row;
    if a > 2_000 || b > 2_000 || c > 2_000 {
        return Ok(false);
    }
    let is_so = loads(board, BASE, &SELF)?;
    let asks = loads(board, BASE + 0x40, &READ)?;
    Ok(
        is_so
            && asks
            && all_go_to(board, BASE)
            && halts_one(board, halted, true)
            && takes(board, 0, a)
            && takes(board, a, b)
            && takes(board, a + b, c)
            && have_retired(board, harts, counts)
            && halts_one(board, halted, false)
            && all_go_to(board, BASE + 0x40)
            && takes(board, a + b + c, 12)
            && have_read(board, harts, counts),
    )
}

#[test]
fn processors_take_slots_in_turn(rt: HostRuntime) -> Result<(), Fail> {
    for (place, row) in TURNS.iter().enumerate() {
        let mut board = start(&rt, rt.alloc(), usize::from(row.0), row.1, row.2)?;
        let is_so = takes_turns(&mut board, row)?;
        assert!(rt; is_so, "row {place}");
    }
    Ok(())
}

// ---- waits

/// Enables the timer interrupt in mie while MIE is 0, puts 100 in mtimecmp and waits. Woken, it
/// reads mcycle to x8 and mtime to x10, and jumps to itself.
///
///     addi x5, x0, 0x80     lui x6, 0x2004       wfi                  lw x10, -8(x9)
///     csrrw x0, mie, x5     addi x7, x0, 100     csrrs x8, mcycle, x0 jal x0, 0
///                           sw x0, 4(x6)         lui x9, 0x200C
///                           sw x7, 0(x6)
const ALARM: &[u32] = &[
    0x0800_0293,
    0x3042_9073,
    0x0200_4337,
    0x0640_0393,
    0x0003_2223,
    0x0073_2023,
    0x1050_0073,
    0xB000_2473,
    0x0200_C4B7,
    0xFF84_A503,
    0x0000_006F,
];

/// The same with 0 in mtimecmp: `addi x7, x0, 0`. The line is up before the wait.
const AT_ONCE: &[u32] = &[
    0x0800_0293,
    0x3042_9073,
    0x0200_4337,
    0x0000_0393,
    0x0003_2223,
    0x0073_2023,
    0x1050_0073,
    0xB000_2473,
    0x0200_C4B7,
    0xFF84_A503,
    0x0000_006F,
];

/// Puts 2^64 - 40 in mtime and 2^64 - 20 in mtimecmp, waits, and reads mcycle to x8. Then it puts 3 in
/// mtimecmp, looks at mip until the line has fallen, since mtime is 0 again, waits once more, and reads
/// mcycle to x10.
///
///     addi x5, x0, 0x80     sw x7, 4(x6)         csrrs x8, mcycle, x0  bne x11, x0, -8
///     csrrw x0, mie, x5     addi x7, x0, -40     addi x7, x0, 3        wfi
///     lui x6, 0x2004        sw x7, -8(x9)        sw x0, 4(x6)          csrrs x10, mcycle, x0
///     lui x9, 0x200C        addi x7, x0, -20     sw x7, 0(x6)          jal x0, 0
///     addi x7, x0, -1       sw x7, 0(x6)         csrrs x11, mip, x0
///     sw x7, -4(x9)         wfi                  andi x11, x11, 0x80
const WRAP: &[u32] = &[
    0x0800_0293,
    0x3042_9073,
    0x0200_4337,
    0x0200_C4B7,
    0xFFF0_0393,
    0xFE74_AE23,
    0x0073_2223,
    0xFD80_0393,
    0xFE74_AC23,
    0xFEC0_0393,
    0x0073_2023,
    0x1050_0073,
    0xB000_2473,
    0x0030_0393,
    0x0003_2223,
    0x0073_2023,
    0x3440_25F3,
    0x0805_F593,
    0xFE05_9CE3,
    0x1050_0073,
    0xB000_2573,
    0x0000_006F,
];

/// Turns the interrupt of received bytes on in the UART, in the interrupt controller and in mie while MIE
/// is 0, and waits. Woken, it reads mcycle to x8 and mip to x10, and jumps to itself.
///
///     lui x6, 0xC000        lui x8, 0xC002       lui x5, 0x10000      csrrw x0, mie, x9    csrrs x8, mcycle, x0
///     addi x7, x0, 1        addi x9, x0, 1024    sb x7, 1(x5)         addi x8, x0, 0       csrrs x10, mip, x0
///     sw x7, 40(x6)         sw x9, 0(x8)         lui x9, 1            wfi                  jal x0, 0
///                                                addi x9, x9, -2048
const LISTEN: &[u32] = &[
    0x0C00_0337,
    0x0010_0393,
    0x0273_2423,
    0x0C00_2437,
    0x4000_0493,
    0x0094_2023,
    0x1000_02B7,
    0x0072_80A3,
    0x0000_14B7,
    0x8004_8493,
    0x3044_9073,
    0x0000_0413,
    0x1050_0073,
    0xB000_2473,
    0x3440_2573,
    0x0000_006F,
];

type Wait = (&'static [u32], u32, u64, bool, u64, u64, u32, u32);

/// Each row: a program, a speed, the slots of a first turn, whether the UART then takes a byte, the slots of a
/// second turn, and what is in minstret, x8 and x10 after it. mcycle in x8 is the slot in which the board was woken.
static WAITS: [Wait; 13] = [
    // woken in the first slot of a microsecond, at both sides of a turn's end
    (ALARM, 1000, 100_000, false, 3, 10, 100_000, 100),
    (ALARM, 1000, 100_001, false, 2, 10, 100_000, 100),
    (ALARM, 1000, 50_500, false, 49_503, 10, 100_000, 100),
    (ALARM, 3, 299, false, 4, 10, 300, 100),
    // the line is up before the wait: woken in the first, a middle and the last slot of a microsecond
    (AT_ONCE, 7, 7, false, 4, 11, 7, 1),
    (AT_ONCE, 10, 7, false, 4, 11, 7, 0),
    (AT_ONCE, 8, 7, false, 4, 11, 7, 1),
    // the line rises in slot 2000, falls in slot 4000 and rises in slot 4300; turns end beside each
    (WRAP, 100, 4_310, false, 0, 2_028, 2_000, 4_300),
    (WRAP, 100, 1_999, false, 2_311, 2_028, 2_000, 4_300),
    (WRAP, 100, 4_299, false, 11, 2_028, 2_000, 4_300),
    // a byte comes before the wait, and in a middle and the last slot of a microsecond
    (LISTEN, 25, 12, true, 8, 20, 13, 0x800),
    (LISTEN, 25, 1_012, true, 10, 23, 1_012, 0x800),
    (LISTEN, 25, 1_024, true, 10, 23, 1_024, 0x800),
];

/// Whether the UART takes a byte.
fn receives(board: &mut Board<Uart>) -> bool {
    !board.plan().kinds.items().is_empty() && board.deliver(0, &Payload::Byte(65)) == Taken::Kept
}

fn is_woken(board: &mut Board<Uart>, row: &Wait) -> Result<bool, NoMemory> {
    let &(program, _, first, byte, second, count, x8, x10) = row;
    let is_so = loads(board, BASE, program)?;
    Ok(
        is_so
            && goes_to(board, 0, BASE)
            && takes(board, 0, first)
            && (!byte || receives(board))
            && takes(board, first, second)
            && retired(board, 0, count)
            && reads(board, 0, 8, x8)
            && reads(board, 0, 10, x10),
    )
}

type Waiting = (u32, [bool; 3], u64, u64, [u32; 2]);

/// Each row: the speed of three processors, of which the first two run `ALARM`, which are halted, where the third runs
/// in a loop if it is not, how many slots are taken and in turns of how many, and what each of the first two that is
/// not halted then has in x8 and x10: it was woken in its first slot of the time.
static SHARED_WAITS: [Waiting; 5] = [
    // all wait or are halted: slot by slot, and in turns that end beside the time
    (3, [false, false, true], 330, 1, [100, 102]),
    (3, [false, false, true], 330, 299, [100, 102]),
    (3, [false, false, true], 330, 301, [100, 102]),
    (30, [true, false, true], 3_300, 7, [1_000, 100]),
    // the third runs
    (3, [true, false, false], 330, 2, [100, 102]),
];

/// Whether a processor has this in x8 and x10, or was halted all the time.
fn has_woken(board: &Board<Uart>, hart: u8, halted: bool, [x8, x10]: [u32; 2]) -> bool {
    if halted {
        return retired(board, hart, 0);
    }
    reads(board, hart, 8, x8) && reads(board, hart, 10, x10)
}

fn wakes(board: &mut Board<Uart>, row: &Waiting) -> Result<bool, NoMemory> {
    let &(_, [first, second, third], slots, each, woken) = row;
    let is_so = loads(board, BASE, ALARM)?;
    let idles = loads(board, SECOND, &SELF)?;
    let ready = is_so
        && idles
        && all_go_to(board, BASE)
        && goes_to(board, 2, SECOND)
        && halts(board, 0, first)
        && halts(board, 1, second)
        && halts(board, 2, third);
    Ok(
        ready
            && takes_by(board, slots, each)
            && has_woken(board, 0, first, woken)
            && has_woken(board, 1, second, woken)
            && retired(board, 2, if third { 0 } else { slots / 3 }),
    )
}

#[test]
fn a_waiting_processor_is_woken_in_its_slot_wherever_turns_end(
    rt: HostRuntime,
) -> Result<(), Fail> {
    for row in &WAITS {
        let mut board = start(&rt, rt.alloc(), 1, PLAIN, row.1)?;
        let is_so = is_woken(&mut board, row)?;
        assert!(rt; is_so, "{row:?}");
    }
    for row in &SHARED_WAITS {
        let mut board = start(&rt, rt.alloc(), 3, ATOMIC, row.0)?;
        let is_so = wakes(&mut board, row)?;
        assert!(rt; is_so, "{row:?}");
    }
    Ok(())
}
