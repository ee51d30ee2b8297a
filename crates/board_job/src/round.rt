//! Boards with their grants, each run to the end of its grant by several workers.
ghost use Rattle.std.specs.Prelude.{◌≡◌, ◌≤◌, ◌+◌, ◌<◌, ◌^◌, [], length, map, All, IfOk};
ghost use Rattle.time_handle.specs.Grant.{left};
ghost use Rattle.board_job.specs.Ran.{ran};

use crate::boxed::BoxedBoardJob;
use crate::laws;
use dev_core::Device;
use floor_run::{Gate, Helpers, run_round, run_round_with};
use lab_num::NoMemory;
use probe_drive::run_in_order;
use probe_jobs::Watcher;
use std::alloc::Global;
use std::sync::Wait;
use std::thread::Threads;

/// Has every board take all slots of its grant, in turns of whichever worker comes first, and gives
/// the boards back in their order, with all their posts sent: each is the board after its stretch,
/// whatever the number of workers and the schedule. At `Err` the boards are lost. The gate is
/// entered before each turn.
pub fn run_board_jobs<R: Threads + Wait + Copy + Send + Sync, D: Device + Send, G: Gate>(
    rt: &R,
    alloc: Global,
    board_jobs: Vec<BoxedBoardJob<D>>,
    workers: u8,
    gate: &G,
) -> Result<Vec<BoxedBoardJob<D>>, NoMemory>
    requires few { length board_jobs.items ≤ 16 }
    requires workers { (1 ≤ workers) × (workers ≤ 8) }
    requires sent { All (λ p. p.board.posts ≡ []) board_jobs.items }
    requires posts { All (λ p. p.board.view.numbers.posted + left p.grant < 2 ^ 64) board_jobs.items }
    requires entries { All (λ p. p.board.view.numbers.entered + left p.grant < 2 ^ 64) board_jobs.items }
    ensures { IfOk result (λ done. done.items ≡ map ran board_jobs.items) }
{
    laws::turns_are_stretches();
    let done = run_round(rt, alloc, board_jobs, workers, gate)?;
    Ok(done)
}

/// As `run_board_jobs`, by the caller and by helpers that live longer than the round.
pub fn run_board_jobs_with<R: Threads + Wait + Copy + Send + Sync, D: Device + Send, G: Gate>(
    rt: &R,
    alloc: Global,
    helpers: &Helpers<BoxedBoardJob<D>>,
    board_jobs: Vec<BoxedBoardJob<D>>,
    workers: u8,
    gate: &G,
) -> Result<Vec<BoxedBoardJob<D>>, NoMemory>
    requires few { length board_jobs.items ≤ 16 }
    requires workers { (1 ≤ workers) × (workers ≤ 8) }
    requires sent { All (λ p. p.board.posts ≡ []) board_jobs.items }
    requires posts { All (λ p. p.board.view.numbers.posted + left p.grant < 2 ^ 64) board_jobs.items }
    requires entries { All (λ p. p.board.view.numbers.entered + left p.grant < 2 ^ 64) board_jobs.items }
    ensures { IfOk result (λ done. done.items ≡ map ran board_jobs.items) }
{
    laws::turns_are_stretches();
    let done = run_round_with(rt, alloc, helpers, board_jobs, workers, gate)?;
    Ok(done)
}

/// Has every board take all slots of its grant, by the caller alone and in order of their microseconds, and gives the
/// boards back in their order, with all their posts sent: each is the board after its stretch, whoever watches. At
/// `Err` the boards are lost. The watcher was told of each slot.
pub fn run_boards_in_order<
    R: Threads + Wait + Copy + Send + Sync,
    D: Device + Send,
    W: Watcher<BoxedBoardJob<D>>,
>(
    rt: &R,
    board_jobs: Vec<BoxedBoardJob<D>>,
    watcher: &mut W,
) -> Result<Vec<BoxedBoardJob<D>>, NoMemory>
    requires sent { All (λ p. p.board.posts ≡ []) board_jobs.items }
    requires posts { All (λ p. p.board.view.numbers.posted + left p.grant < 2 ^ 64) board_jobs.items }
    requires entries { All (λ p. p.board.view.numbers.entered + left p.grant < 2 ^ 64) board_jobs.items }
    ensures { IfOk result (λ done. done.items ≡ map ran board_jobs.items) }
{
    laws::turns_are_stretches();
    let done = run_in_order(rt, board_jobs, watcher)?;
    Ok(done)
}
