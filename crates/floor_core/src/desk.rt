//! One board of a floor.
ghost use Rattle.std.specs.Prelude.{◌≡◌, ◌≢◌, ◌↔◌, [], IsTrue, OnOk, slice_get};
ghost use Rattle.floor_core.specs.Events.{MayClaim, MayPost, MayReport, IsDone, claimed, relieved, at_home};
ghost use Rattle.floor_core.specs.Floor.{fresh};

use crate::job::{Job, Turn};
use dev_core::Post;
use lab_num::NoMemory;
use std::marker::Model;

/// A board: its job, the worker that it is out with, and the slots that it began with.
#[derive(Drop)]
pub struct Desk<J: Job> {
    job: J,
    worker: Option<u8>,
    grant: u64,
}

impl<J: Job> Model for Desk<J> {
    ghost use Rattle.std.specs.Prelude.{◌-◌, ◌≤◌};
    ghost use Rattle.floor_core.specs.Floor.{Board};
    ghost use Rattle.floor_core.specs.Job.{left};

    ghost Value = { Board J.State };

    ghost view = { λ d. record { job = J.meaning d.job; worker = d.worker; used = d.grant - left (J.meaning d.job) } };

    ghost invariant = { λ d. left (J.meaning d.job) ≤ d.grant };
}

impl<J: Job> Desk<J> {
    /// A board at home that has used nothing.
    pub fn new(job: J) -> Desk<J>
        ensures { result ≡ fresh (J.meaning job) }
    {
        let grant = job.left();
        Desk {
            job,
            worker: None,
            grant,
        }
    }

    pub fn job(&self) -> &J
        ensures { J.meaning result.now ≡ self.now.job }
    {
        &self.job
    }

    /// The slots that are used so far.
    pub fn used(&self) -> u64
        ensures { result ≡ self.now.used }
    {
        self.grant - self.job.left()
    }

    pub fn next_post(&self) -> Option<Post>
        ensures { result ≡ slice_get self.now.job.unsent 0 }
    {
        self.job.next_post()
    }

    /// Whether no post is unsent.
    #[tactic(auto, using(lab_num::proofs::ListLemmas::first_none))]
    fn is_sent(&self) -> bool
        ensures { IsTrue result ↔ (self.now.job.unsent ≡ []) }
    {
        self.job.next_post().is_none()
    }

    /// Whether a worker may take the board for a turn of so many slots.
    pub fn may_claim(&self, slots: u64) -> bool
        ensures { IsTrue result ↔ MayClaim slots self.now }
    {
        self.worker.is_none() && 1 <= slots && slots <= self.job.left()
    }

    /// Whether the worker may send the board's oldest unsent post.
    pub fn may_post(&self, worker: u8) -> bool
        ensures { IsTrue result ↔ MayPost worker self.now }
    {
        self.worker == Some(worker) && !self.is_sent()
    }

    /// Whether the worker may bring the board home.
    pub fn may_report(&self, worker: u8) -> bool
        ensures { IsTrue result ↔ MayReport worker self.now }
    {
        self.worker == Some(worker) && self.is_sent()
    }

    /// Whether the board is at home, paid up and without unsent posts.
    pub fn is_done(&self) -> bool
        ensures { IsTrue result ↔ IsDone self.now }
    {
        self.worker.is_none() && self.job.left() == 0 && self.is_sent()
    }

    /// The worker takes the board for a turn of so many slots.
    pub fn claim(&mut self, worker: u8, slots: u64) -> Result<(), NoMemory>
        requires { MayClaim slots self.old }
        ensures { OnOk result (self.new ≡ claimed J.state_after worker slots self.old) }
    {
        match self.job.turn(slots) {
            Turn::Used(_) => {
                self.worker = Some(worker);
                Ok(())
            }
            Turn::Starved(_) => Err(NoMemory),
        }
    }

    /// The board's oldest unsent post is sent.
    pub fn drop_post(&mut self)
        requires { self.old.job.unsent ≢ [] }
        ensures { self.new ≡ relieved self.old }
    {
        self.job.drop_post();
    }

    /// The board is brought home.
    pub fn report(&mut self)
        ensures { self.new ≡ at_home self.old }
    {
        self.worker = None;
    }
}
