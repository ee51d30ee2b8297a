//! Boards that send one byte, each with a grant of ten slots.
ghost use Rattle.std.specs.Prelude.{◌≡◌, ◌+◌, ◌<◌, ◌^◌, ◌∷◌, [], IfOk};
ghost use Rattle.dev_core.specs.declared.kind.Kind.TheVariants.{Uart as uart};
ghost use Rattle.time_handle.specs.Grant.{left};

use board::Board;
use board_job::BoardJob;
use dev_core::{Kind, Payload, Post};
use hub_mail::Pass;
use lab_num::{BoardNo, Key, Member, Micros, NoMemory, PostNo, Rows};
use sample_boards::usual_board;
use std::alloc::Global;
use std::process::Abort;
use std::test::Fail;
use sys_bus::BoardPlan;
use time_handle::Handle;
use uart_16550::Uart;

/// Where a board's memory begins.
const START: u32 = 0x8000_0000;

/// The third of these instructions sends the byte 'A'.
static PROGRAM: [u8; 16] = [
    0xB7, 0x02, 0x00, 0x10, // lui x5, 0x10000
    0x13, 0x03, 0x10, 0x04, // addi x6, x0, 65
    0x23, 0x80, 0x62, 0x00, // sb x6, 0(x5)
    0x6F, 0x00, 0x00, 0x00, // jal x0, 0
];

/// Two instructions a microsecond.
fn plan(alloc: Global) -> Result<BoardPlan, Fail>
    ensures { IfOk result (λ plan. plan.kinds ≡ uart ∷ []) }
{
    let kinds = Rows::of(vec![in alloc; Kind::Uart]?);
    let mut plan = usual_board(alloc)?;
    plan.kinds = kinds;
    plan.speed = 2;
    Ok(plan)
}

/// Puts the program into a board.
fn load(rt: &impl Abort, board: &mut Board<Uart>) -> Result<(), NoMemory>
    ensures numbers { IfOk result (λ _. board.new.view.numbers ≡ board.old.view.numbers) }
    ensures posts { IfOk result (λ _. board.new.posts ≡ board.old.posts) }
{
    assert!(rt; board.holds(START, 16));
    board.copy_in(START, &PROGRAM)?;
    assert!(rt; !board.plan().cpus.items().is_empty());
    board.set_pc(0, START);
    Ok(())
}

/// A board of the program.
fn board(rt: &impl Abort, alloc: Global, number: BoardNo) -> Result<Board<Uart>, Fail>
    ensures number { IfOk result (λ board. board.view.numbers.number ≡ number.0) }
    ensures posts { IfOk result (λ board. board.posts ≡ []) }
{
    let devices = vec![in alloc; Uart::new()]?;
    let plan = plan(alloc)?;
    assert!(rt; plan.is_valid());
    let Ok(mut board) = Board::new(alloc, number, plan, devices) else {
        return Err(Fail::from(NoMemory));
    };
    load(rt, &mut board)?;
    Ok(board)
}

/// The board of this pass, with a grant from microsecond 7 to 12.
pub fn board_job(
    rt: &impl Abort,
    alloc: Global,
    pass: Pass,
    number: BoardNo,
) -> Result<BoardJob<Uart>, Fail>
    requires own { pass.board ≡ number.0 }
    requires new { pass.posted ≡ [] }
    ensures pass { IfOk result (λ board_job. board_job.pass ≡ pass) }
    ensures none { IfOk result (λ board_job. board_job.board.posts ≡ []) }
    ensures posts { IfOk result (λ board_job. board_job.board.view.numbers.posted + left board_job.grant < 2 ^ 64) }
    ensures entries { IfOk result (λ board_job. board_job.board.view.numbers.entered + left board_job.grant < 2 ^ 64) }
{
    let board = board(rt, alloc, number)?;
    let handle = Handle::new(Micros(7), Micros(12), 2);
    assert!(rt; board.speed() == 2);
    assert!(rt; board.posted() == 0 && board.entered() == 0);
    Ok(BoardJob::new(board, handle, pass))
}

/// What the board sends: the third slot lies in microsecond 8.
pub fn post(board: u8) -> Post {
    let board = BoardNo(board);
    Post {
        key: Key {
            at: Micros(8),
            board,
            number: PostNo(0),
        },
        from: Member { board, dev: 0 },
        payload: Payload::Byte(b'A'),
    }
}
