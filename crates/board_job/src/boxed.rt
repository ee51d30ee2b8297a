//! A job in a box: where it changes hands a pointer is moved, and no board.
ghost use Rattle.std.specs.Prelude.{◌≡◌, IfOk};

use crate::board_job::BoardJob;
use board::Board;
use dev_core::{Device, Post};
use floor_core::{Job, Turn};
use hub_mail::Pass;
use lab_num::NoMemory;
use probe_jobs::Timed;
use std::alloc::Global;
use std::marker::Model;
use std::sync::Wait;
use std::thread::Threads;
use time_handle::Handle;

/// A job in a box. It is the job that the job is.
#[derive(Drop)]
pub struct BoxedBoardJob<D: Device> {
    inner: Box<BoardJob<D>>,
}

impl<D: Device> Model for BoxedBoardJob<D> {
    ghost use Rattle.board_job.specs.BoardJob.{BoardJob};

    ghost Value = { BoardJob };

    ghost view = { λ p. p.inner.value };
}

impl<D: Device> BoxedBoardJob<D> {
    /// A job that is put into a box. Without memory for it the job is lost.
    pub fn new(alloc: Global, board_job: BoardJob<D>) -> Result<BoxedBoardJob<D>, NoMemory>
        ensures { IfOk result (λ boxed. boxed ≡ board_job) }
    {
        let inner = Box::new(alloc, board_job)?;
        Ok(BoxedBoardJob { inner })
    }

    /// The job, taken out of its box.
    pub fn into_board_job(self) -> BoardJob<D>
        ensures { result ≡ self }
    {
        let BoxedBoardJob { inner } = self;
        Box::into_inner(inner)
    }

    pub fn board(&self) -> &Board<D>
        ensures { result.now ≡ self.now.board }
    {
        self.inner.board()
    }

    pub fn handle(&self) -> Handle
        ensures value { result ≡ self.now.grant }
        ensures speed { result.speed ≡ self.now.board.view.numbers.speed }
    {
        self.inner.handle()
    }
}

impl<D: Device + Send> Job for BoxedBoardJob<D> {
    ghost use Rattle.board_job.specs.Slots as slots;
    ghost use Rattle.board_job.specs.Inner.Moves.{state-add, state-none};

    type State = ((Board<D>, Handle), Pass);

    ghost meaning = { λ p. slots.job_of p.board p.grant p.pass };

    ghost sent = { λ p. p.pass.posted };

    ghost state_after = { slots.state_after };

    fn left(&self) -> u64 {
        self.inner.left()
    }

    fn turn(&mut self, limit: u64) -> Turn {
        self.inner.turn(limit)
    }

    fn next_post(&self) -> Option<Post> {
        self.inner.next_post()
    }

    fn drop_post(&mut self) {
        self.inner.drop_post();
    }

    fn send_out<R: Threads + Wait + Copy + Send + Sync>(&mut self, rt: &R) -> bool {
        self.inner.send_out(rt)
    }

    ghost adds = { λ s coming a b _. state-add s coming a b };

    ghost rests = { state-none };
}

impl<D: Device + Send> Timed for BoxedBoardJob<D> {
    ghost use Rattle.board_job.specs.Slots.{idled};
    ghost use Rattle.board_job.specs.Inner.Moves.{state-rises};
    ghost use Rattle.time_handle.specs.Grant.{elapsed};

    ghost time = { λ s. elapsed s.0.1 };

    ghost idled = { idled };

    fn time(&self) -> u64 {
        self.inner.time()
    }

    fn pass(&mut self, limit: u64) -> u64 {
        self.inner.pass(limit)
    }

    ghost rises = { state-rises };
}
