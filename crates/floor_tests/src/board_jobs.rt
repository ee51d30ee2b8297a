//! Boards that post what they make.
ghost use Rattle.std.specs.Prelude.{◌≡◌, ◌≤◌, ◌∷◌, ◌++◌, []};
ghost use Rattle.hub_mail.specs.Boss.{sent_by};

use crate::boards::{board_job, post};
use board_job::{BoardJob, BoxedBoardJob, run_board_jobs};
use dev_core::Post;
use floor_core::{Job, Turn};
use floor_run::NoGate;
use hub_mail::{Boss, Mail};
use lab_num::BoardNo;
use std::alloc::Global;
use std::process::Abort;
use std::sync::Wait;
use std::test::Fail;
use std::thread::Threads;
use uart_16550::Uart;

/// Limits of turns, one after another, and the slots that are taken.
static TURNS: [(u64, u64); 4] = [(2, 2), (0, 0), (5, 5), (100, 3)];

#[test]
fn a_board_posts_what_it_has_made(rt: HostRuntime) -> Result<(), Fail> {
    let alloc = rt.alloc();
    let (_boss, mut passes) = Mail::begin(&rt, alloc, 1)?;
    let mut job = board_job(&rt, alloc, passes.pop().unwrap(), BoardNo(0))?;
    for (limit, taken) in &TURNS {
        assert!(rt; job.turn(*limit) == Turn::Used(*taken), "{limit}");
    }
    assert!(rt; job.turn(1) == Turn::Used(0));
    assert!(rt; job.next_post() == Some(post(0)));
    assert!(rt; job.send_out(&rt));
    assert!(rt; job.next_post().is_none());
    Ok(())
}

/// Whether a board has come back with its grant used up and its post made. Its pass is taken in.
fn is_done<R: Wait>(rt: &R, boss: &mut Boss, board_job: BoardJob<Uart>) -> bool
    requires { board_job.pass.mail ≡ boss.old.mail }
    ensures { boss.new ≡ record boss.old { taken = boss.old.taken ++ sent_by board_job.pass ∷ [] } }
{
    let (board, handle, pass) = board_job.into_parts();
    boss.take_in(rt, pass);
    board.posted() == 1 && board.next_post().is_none() && handle.left() == 0
}

/// What two boards post that so many workers run, in order of arrival.
fn posts_of_two<R: Abort + Threads + Wait + Copy + Send + Sync>(
    rt: &R,
    alloc: Global,
    workers: u8,
) -> Result<Vec<Post>, Fail>
    requires { (1 ≤ workers) × (workers ≤ 8) }
{
    let (mut boss, mut passes) = Mail::begin(rt, alloc, 2)?;
    let second = BoxedBoardJob::new(
        alloc,
        board_job(rt, alloc, passes.pop().unwrap(), BoardNo(1))?,
    )?;
    let first = BoxedBoardJob::new(
        alloc,
        board_job(rt, alloc, passes.pop().unwrap(), BoardNo(0))?,
    )?;
    let mut done = run_board_jobs(rt, alloc, vec![in alloc; first, second]?, workers, &NoGate)?;
    let second = done.pop().unwrap().into_board_job();
    let first = done.pop().unwrap().into_board_job();
    assert!(rt; is_done(rt, &mut boss, first));
    assert!(rt; is_done(rt, &mut boss, second));
    let posts = boss.drain(rt)?;
    Ok(posts)
}

#[test]
fn boards_that_workers_run_post_into_one_mail(rt: HostRuntime) -> Result<(), Fail> {
    for workers in 1..9_u8 {
        let mut posts = posts_of_two(&rt, rt.alloc(), workers)?;
        posts.sort_by_key(|post| post.key)?;
        assert!(rt; posts.as_slice() == [post(0), post(1)].as_slice());
    }
    Ok(())
}
