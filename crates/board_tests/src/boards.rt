//! A board with two UARTs that count their calls.
ghost use Rattle.std.specs.Prelude.{◌≡◌, ◌∷◌, [], IfOk};
ghost use Rattle.dev_core.specs.declared.kind.Kind.TheVariants.{Uart as uart};

use board::{Board, SlotAt, Turn};
use dev_core::{Entry, Kind, Payload, Post, What};
use lab_num::{BoardNo, Key, Member, Micros, NoMemory, PostNo, Rows};
use sample_boards::{CountedUart, small_board};
use std::alloc::Global;
use std::cell::Cell;
use std::process::Abort;
use std::test::Fail;
use sys_bus::BoardPlan;

const BASE: u32 = 0x8000_0000;

const BOARD: BoardNo = BoardNo(3);

/// The place of the first UART.
const UART: u8 = 0;

/// The small board with a second UART in place of the finisher.
fn plan(alloc: Global) -> Result<BoardPlan, NoMemory>
    ensures { IfOk result (λ plan. plan.kinds ≡ uart ∷ uart ∷ []) }
{
    let kinds = Rows::of(vec![in alloc; Kind::Uart, Kind::Uart]?);
    let mut plan = small_board(alloc)?;
    plan.kinds = kinds;
    Ok(plan)
}

/// A board whose UARTs count their loads and their stores, the first and then the second.
fn start<'a>(
    rt: &impl Abort,
    alloc: Global,
    counts: &'a [Cell<u32>; 4],
) -> Result<Board<CountedUart<'a>>, Fail> {
    let uarts = vec![in alloc;
        CountedUart::new(&counts[0], &counts[1]),
        CountedUart::new(&counts[2], &counts[3]),
    ]?;
    let plan = plan(alloc)?;
    assert!(rt; plan.is_valid());
    match Board::new(alloc, BOARD, plan, uarts) {
        Ok(board) => Ok(board),
        Err(_) => Err(Fail::from(NoMemory)),
    }
}

fn copy(
    rt: &impl Abort,
    board: &mut Board<CountedUart>,
    at: u32,
    bytes: &[u8],
) -> Result<(), NoMemory> {
    assert!(rt; bytes.len() < 0x1000);
    assert!(rt; board.holds(at, bytes.len() as u32));
    board.copy_in(at, bytes)?;
    Ok(())
}

/// Of the grant that begins at a microsecond a board takes so many slots from one on.
fn runs(board: &mut Board<CountedUart>, from: u64, first: u64, n: u64) -> bool {
    if from > 1000
        || first > 1000
        || n > 1000
        || board.posted() >= 1000
        || board.entered() >= 1000
    {
        return false;
    }
    if from + (first + n) / u64::from(board.speed()) > 10_000_000_000 {
        return false;
    }
    let at = SlotAt {
        from: Micros(from),
        first,
    };
    board.turn(at, n) == Turn::Used(n)
}

/// Makes the first memory the next to run.
fn begins(board: &mut Board<CountedUart>) -> bool {
    if board.plan().cpus.items().is_empty() || !board.aligns(BASE) {
        return false;
    }
    board.set_pc(0, BASE);
    true
}

/// Whether the processor has retired nothing.
fn has_retired_none(board: &Board<CountedUart>) -> bool {
    !board.plan().cpus.items().is_empty() && board.retired(0) == 0
}

/// Shows the first UART.
fn shows(board: &mut Board<CountedUart>) -> bool {
    if !matches!(board.plan().kinds.items().first(), Some(Kind::Uart)) {
        return false;
    }
    board.show(UART);
    board.is_shown(UART)
}

fn key(at: u64, number: u64) -> Key {
    Key {
        at: Micros(at),
        board: BOARD,
        number: PostNo(number),
    }
}

fn drop_one(board: &mut Board<CountedUart>) {
    if board.next_post().is_some() {
        board.drop_post();
    }
}

/// The one post, which is dropped, has this microsecond and number, and is the letter of a UART.
fn posts(board: &mut Board<CountedUart>, (at, number): (u64, u64)) -> bool {
    let from = Member {
        board: BOARD,
        dev: UART,
    };
    let post = Post {
        key: key(at, number),
        from,
        payload: Payload::Byte(65),
    };
    let is_next = board.next_post() == Some(post);
    drop_one(board);
    is_next && board.next_post().is_none()
}

/// The entries since the last look are one of this microsecond and number, or none.
fn enters(board: &mut Board<CountedUart>, entry: Option<(u64, u64)>) -> bool {
    let made = board.take_entries();
    match entry {
        Some((at, number)) => {
            let what = What::Byte {
                dev: UART,
                value: 65,
            };
            let wanted = [Entry {
                key: key(at, number),
                what,
            }];
            made.as_slice() == wanted.as_slice()
        }
        None => made.is_empty(),
    }
}

/// lui x5, 0x10000; addi x6, x0, 65; sb x6, 0(x5); jal x0, -4
static SEND: [u8; 16] = [
    0xB7, 0x02, 0x00, 0x10, 0x13, 0x03, 0x10, 0x04, 0x23, 0x80, 0x62, 0x00, 0x6F, 0xF0, 0xDF, 0xFF,
];

type Sending = (u64, u64, (u64, u64), Option<(u64, u64)>);

/// Each row: a grant, a slot of it at which the letter is sent, the post, and the entry. The UART is
/// not shown at first.
static SENT: [Sending; 1] = [(100, 32, (132, 2), None)];

static SHOWN: [Sending; 2] = [
    (200, 0, (200, 3), Some((200, 0))),
    (200, 52, (252, 4), Some((252, 1))),
];

fn assert_sent(rt: &impl Abort, board: &mut Board<CountedUart>, rows: &[Sending]) {
    for (from, first, post, entry) in rows {
        assert!(rt; runs(board, *from, *first, 2) && posts(board, *post) && enters(board, *entry));
    }
}

/// Posts and entries are numbered apart.
fn send(rt: &impl Abort, board: &mut Board<CountedUart>) {
    assert!(rt; runs(board, 100, 30, 2) && board.next_post().is_none());
    assert_sent(rt, board, &SENT);
    assert!(rt; shows(board));
    assert_sent(rt, board, &SHOWN);
}

/// A reset keeps the numbers.
fn reset(rt: &impl Abort, board: &mut Board<CountedUart>) {
    board.reset();
    assert!(rt; board.posted() == 5 && board.entered() == 2 && has_retired_none(board));
}

/// lui x5, 0x10000; lbu x6, 5(x5); sb x6, 7(x5); lbu x6, 5(x5); lui x7, 0x100; sb x6, 0(x7)
static ACCESSES: [u8; 24] = [
    0xB7, 0x02, 0x00, 0x10, 0x03, 0xC3, 0x52, 0x00, 0xA3, 0x83, 0x62, 0x00, 0x03, 0xC3, 0x52, 0x00,
    0xB7, 0x03, 0x10, 0x00, 0x23, 0x80, 0x63, 0x00,
];

/// The second time there is no room for a post at first.
fn access(rt: &impl Abort, board: &mut Board<CountedUart>) {
    assert!(rt; runs(board, 0, 0, 6));
    assert!(rt;
        begins(board) && runs(board, 6, 0, 6) && board.posted() == 2 && board.entered() == 0
    );
    drop_one(board);
    drop_one(board);
}

/// Each load and each store of a register is one call.
fn assert_calls(rt: &impl Abort, counts: &[Cell<u32>; 4]) {
    assert!(rt; counts[0].get() == 4 && counts[1].get() == 2);
    assert!(rt; counts[2].get() == 0 && counts[3].get() == 2);
}

/// Copies a program to the first memory, and makes it the next to run.
fn load(rt: &impl Abort, board: &mut Board<CountedUart>, program: &[u8]) -> Result<(), NoMemory> {
    assert!(rt; begins(board));
    copy(rt, board, BASE, program)
}

fn use_board(
    rt: &impl Abort,
    board: &mut Board<CountedUart>,
    counts: &[Cell<u32>; 4],
) -> Result<(), Fail> {
    load(rt, board, &ACCESSES)?;
    access(rt, board);
    assert_calls(rt, counts);
    load(rt, board, &SEND)?;
    send(rt, board);
    reset(rt, board);
    Ok(())
}

#[test]
fn a_board_calls_devices_once_and_numbers_what_they_send(rt: HostRuntime) -> Result<(), Fail> {
    let counts = [Cell::new(0), Cell::new(0), Cell::new(0), Cell::new(0)];
    let mut board = start(&rt, rt.alloc(), &counts)?;
    use_board(&rt, &mut board, &counts)
}
