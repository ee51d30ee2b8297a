//! Orders of what workers do with two boards.
ghost use Rattle.std.specs.Prelude.{◌≡◌, ◌<◌, length, IfOk};

use crate::boards::{board_job, post};
use crate::words::events_of;
use board_job::BoardJob;
use dev_core::Post;
use floor_core::{Floor, Job, Ran};
use hub_mail::Mail;
use lab_num::{BoardNo, Micros, NoMemory};
use std::alloc::Global;
use std::process::Abort;
use std::sync::Wait;
use std::test::Fail;
use uart_16550::Uart;

fn two_boards<R: Abort + Wait>(rt: &R, alloc: Global) -> Result<Floor<BoardJob<Uart>>, Fail>
    ensures { IfOk result (λ floor. length floor.boards ≡ 2) }
{
    let (_, mut passes) = Mail::begin(rt, alloc, 2)?;
    let second = board_job(rt, alloc, passes.pop().unwrap(), BoardNo(1))?;
    let first = board_job(rt, alloc, passes.pop().unwrap(), BoardNo(0))?;
    let floor = Floor::begin(alloc, vec![in alloc; first, second]?)?;
    Ok(floor)
}

/// The posts in the mail, in order of their keys.
fn posts_of(alloc: Global, floor: &Floor<BoardJob<Uart>>) -> Result<Vec<Post>, NoMemory> {
    let mut posts = Vec::new(alloc);
    for mailed in floor.mail() {
        posts.push(mailed.post)?;
    }
    posts.sort_by_key(|post| post.key)?;
    Ok(posts)
}

/// Whether the posts of these boards are in the mail, in this order, and no others.
fn has_mail_of(floor: &Floor<BoardJob<Uart>>, boards: &[u8]) -> bool {
    floor.mail().len() == boards.len()
        && floor
            .mail()
            .iter()
            .zip(boards)
            .all(|(mailed, board)| mailed.post == post(*board))
}

/// Each row: events, what becomes of them, and the boards whose posts are in the mail then, in order
/// of arrival.
type Row = (&'static str, Ran, &'static [u8]);

static ROWS: [Row; 7] = [
    (
        "c001 r00 c102 p10 r10 c207 r20 c01a p01 r01 e",
        Ran::All,
        &[0, 1],
    ),
    ("c11a p11 c00a p00 r00 r11 e", Ran::All, &[1, 0]),
    ("c00a c111 p00 r00", Ran::All, &[0]),
    ("c01a c111", Ran::Stopped(1), &[]),
    ("c00b", Ran::Stopped(0), &[]),
    ("c009 p00 r00 c102", Ran::Stopped(3), &[0]),
    ("c003 r00", Ran::Stopped(1), &[]),
];

fn assert_rows<R: Abort + Wait>(rt: &R, alloc: Global, rows: &[Row]) -> Result<(), Fail> {
    for (text, ran, boards) in rows {
        let events = events_of(alloc, text)?;
        let mut floor = two_boards(rt, alloc)?;
        assert!(rt; floor.run_events(&events) == *ran && has_mail_of(&floor, boards));
    }
    Ok(())
}

#[test]
fn boards_are_jobs_of_a_floor(rt: HostRuntime) -> Result<(), Fail> {
    assert_rows(&rt, rt.alloc(), &ROWS)
}

/// Two orders of all that can be done with both boards.
static ORDERS: [&str; 2] = [
    "c001 r00 c102 p10 r10 c207 r20 c01a p01 r01 e",
    "c115 p11 r11 c00a c215 p00 r00 r21 e",
];

/// The board has taken all slots of its grant, and goes round in one place.
fn is_done(floor: &Floor<BoardJob<Uart>>, board: u8) -> bool
    requires { board < length floor.now.boards }
{
    let job = floor.job(BoardNo(board));
    let board = job.board();
    job.left() == 0
        && job.handle().elapsed() == Micros(12)
        && !board.plan().cpus.items().is_empty()
        && board.retired(0) == 10
        && board.pc(0) == 0x8000_000C
}

/// The posts after an order of all that can be done with both boards, which are done then.
fn posts_after<R: Abort + Wait>(rt: &R, alloc: Global, text: &str) -> Result<Vec<Post>, Fail> {
    let events = events_of(alloc, text)?;
    let mut floor = two_boards(rt, alloc)?;
    assert!(rt; floor.run_events(&events) == Ran::All && floor.is_ended());
    assert!(rt; is_done(&floor, 0) && is_done(&floor, 1));
    Ok(posts_of(alloc, &floor)?)
}

fn assert_orders<R: Abort + Wait>(rt: &R, alloc: Global, orders: &[&str]) -> Result<(), Fail> {
    for text in orders {
        let posts = posts_after(rt, alloc, text)?;
        assert!(rt; posts.as_slice() == [post(0), post(1)].as_slice());
    }
    Ok(())
}

#[test]
fn boards_come_to_the_same_in_each_order(rt: HostRuntime) -> Result<(), Fail> {
    assert_orders(&rt, rt.alloc(), &ORDERS)
}
