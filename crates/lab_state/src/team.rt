//! The helpers of a run.
ghost use Rattle.std.specs.Prelude.{◌≡◌, ◌≤◌, ◌+◌, ◌<◌, ◌^◌, [], length, map, All, IfOk, false};
ghost use Rattle.time_handle.specs.Grant.{left};
ghost use Rattle.board_job.specs.Ran.{ran};
ghost use Rattle.lab_state.specs.Workers as workers_spec;

use board_job::{BoxedBoardJob, run_board_jobs, run_board_jobs_with};
use dev_core::Device;
use floor_run::{Gate, Helpers};
use lab_num::NoMemory;
use std::alloc::Global;
use std::marker::Model;
use std::sync::Wait;
use std::thread::Threads;

/// The fewest slots for which helpers are called to a round. With fewer it is done sooner in its place.
const WORTH_HELPERS: u64 = 8_192;

/// The fewest slots for which threads are started.
pub(crate) const WORTH_THREADS: u64 = 16_384;

/// Who runs the boards of the rounds of a run beside its leader: helpers who wait for the boards of more than one
/// round, or none. Then a round starts threads of its own where it is worth them. No result depends on it.
#[derive(Drop)]
pub struct Team<D: Device + Send> {
    helpers: Option<Helpers<BoxedBoardJob<D>>>,
    workers: u8,
}

impl<D: Device + Send> Model for Team<D> {
    ghost use Rattle.std.specs.Prelude.{is_some};
    ghost use Rattle.lab_state.specs.Workers.{Team};

    ghost Value = { Team };

    ghost view = { λ t. record { has_helpers = is_some t.helpers; hands = t.workers } };
}

impl<D: Device + Send> Team<D> {
    /// No helpers.
    pub(crate) fn none() -> Team<D>
        ensures helpers { result.has_helpers ≡ false }
        ensures hands { result.hands ≡ 1 }
    {
        Team {
            helpers: None,
            workers: 1,
        }
    }

    /// Helpers that make so many workers with their leader, or none where no memory is found for them.
    pub(crate) fn new(alloc: Global, workers: u8) -> Team<D>
        ensures { result.hands ≡ workers }
    {
        Team {
            helpers: Helpers::new(alloc).ok(),
            workers,
        }
    }

    /// Whether anyone is to `help`.
    pub fn has_helpers(&self) -> bool
        ensures { result ≡ self.now.has_helpers }
    {
        self.helpers.is_some()
    }

    /// Helps in the rounds of the team until it is dismissed: each helper on a thread of its own where one can be
    /// made, and all on this one where none can. Where there are no helpers it returns at once.
    pub fn help<R: Threads + Wait + Copy + Send + Sync, G: Gate>(
        &self,
        rt: &R,
        alloc: Global,
        gate: &G,
    ) {
        if let Some(helpers) = &self.helpers {
            helpers.help_by(rt, alloc, self.workers, gate);
        }
    }

    /// Lets the helpers go: `help` returns.
    pub fn dismiss(&self) {
        if let Some(helpers) = &self.helpers {
            helpers.dismiss();
        }
    }

    /// The fewest slots of a round that is worth more than one worker.
    pub(crate) fn least_shared(&self) -> u64
        ensures { result ≡ workers_spec.least_shared self.now }
    {
        match self.helpers {
            Some(_) => WORTH_HELPERS,
            None => WORTH_THREADS,
        }
    }

    /// Has every board take all slots of its grant, by so many workers.
    pub(crate) fn run<R: Threads + Wait + Copy + Send + Sync, G: Gate>(
        &self,
        rt: &R,
        alloc: Global,
        jobs: Vec<BoxedBoardJob<D>>,
        workers: u8,
        gate: &G,
    ) -> Result<Vec<BoxedBoardJob<D>>, NoMemory>
        requires few { length jobs.items ≤ 16 }
        requires workers { (1 ≤ workers) × (workers ≤ 8) }
        requires sent { All (λ p. p.board.posts ≡ []) jobs.items }
        requires posts { All (λ p. p.board.view.numbers.posted + left p.grant < 2 ^ 64) jobs.items }
        requires entries { All (λ p. p.board.view.numbers.entered + left p.grant < 2 ^ 64) jobs.items }
        ensures { IfOk result (λ done. done.items ≡ map ran jobs.items) }
    {
        match &self.helpers {
            Some(helpers) => run_board_jobs_with(rt, alloc, helpers, jobs, workers, gate),
            None => run_board_jobs(rt, alloc, jobs, workers, gate),
        }
    }
}
