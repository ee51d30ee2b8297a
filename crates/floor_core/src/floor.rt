//! The floor of one round.
ghost use Rattle.std.specs.Prelude.{◌≡◌, ◌<◌, ◌≤◌, ◌↔◌, true, map, length, IsTrue, IsSomeAnd, IfOk, OnOk};
ghost use Rattle.std.specs.Prelude.{slice_get};
ghost use Rattle.floor_core.specs.Events.{IsLegal, MayClaim, MayPost, MayReport, happened};
ghost use Rattle.floor_core.specs.Floor.{begun, fresh};
ghost use Rattle.floor_core.specs.Run.{ComesTo};

use crate::desk::Desk;
use crate::event::{Event, Mailed, Ran};
use crate::job::Job;
use lab_num::{BoardNo, NoMemory};
use std::alloc::Global;
use std::marker::Model;

/// The boards of one round, each with its job, the worker that it is out with and the slots that
/// it has used; the posts in order of arrival; and whether the round has ended.
#[derive(Drop)]
pub struct Floor<J: Job> {
    desks: Vec<Desk<J>>,
    mail: Vec<Mailed>,
    is_ended: bool,
}

impl<J: Job> Model for Floor<J> {
    ghost use Rattle.floor_core.specs.Floor.{Floor};

    ghost Value = { Floor J.State };

    ghost view = { λ f. record { boards = f.desks.items; mail = f.mail.items; is_ended = f.is_ended } };
}

/// A desk for each job, with the board at home.
fn desks_of<J: Job>(alloc: Global, jobs: Vec<J>) -> Result<Vec<Desk<J>>, NoMemory>
    ensures { IfOk result (λ desks. desks.items ≡ map fresh (map J.meaning jobs.items)) }
{
    let mut desks = Vec::with_capacity(alloc, jobs.len())?;
    for job in jobs {
        desks.push(Desk::new(job))?;
    }
    Ok(desks)
}

impl<J: Job> Floor<J> {
    /// The floor as a round begins: each board is at home and has used nothing.
    pub fn begin(alloc: Global, jobs: Vec<J>) -> Result<Floor<J>, NoMemory>
        requires { length jobs.items ≤ 16 }
        ensures floor { IfOk result (λ floor. floor ≡ begun (map J.meaning jobs.items)) }
        ensures boards { IfOk result (λ floor. length floor.boards ≡ length jobs.items) }
    {
        let desks = desks_of(alloc, jobs)?;
        Ok(Floor {
            desks,
            mail: Vec::new(alloc),
            is_ended: false,
        })
    }

    pub fn job(&self, board: BoardNo) -> &J
        requires { board.0 < length self.now.boards }
        ensures { IsSomeAnd (slice_get self.now.boards board.0) (λ b. J.meaning result.now ≡ b.job) }
    {
        self.desks[usize::from(board.0)].job()
    }

    /// The slots that a board has used so far.
    pub fn used(&self, board: BoardNo) -> u64
        requires { board.0 < length self.now.boards }
        ensures { IsSomeAnd (slice_get self.now.boards board.0) (λ b. result ≡ b.used) }
    {
        self.desks[usize::from(board.0)].used()
    }

    /// The posts that were sent so far, in order of arrival.
    pub fn mail(&self) -> &[Mailed]
        ensures { result.now ≡ self.now.mail }
    {
        &self.mail
    }

    pub fn is_ended(&self) -> bool
        ensures { result ≡ self.now.is_ended }
    {
        self.is_ended
    }

    /// Whether a worker may take the board for a turn of so many slots.
    fn may_claim(&self, board: BoardNo, slots: u64) -> bool
        ensures { IsTrue result ↔ IsSomeAnd (slice_get self.now.boards board.0) (MayClaim slots) }
    {
        let i = usize::from(board.0);
        i < self.desks.len() && self.desks[i].may_claim(slots)
    }

    /// Whether the worker may send the board's oldest unsent post.
    fn may_post(&self, worker: u8, board: BoardNo) -> bool
        ensures { IsTrue result ↔ IsSomeAnd (slice_get self.now.boards board.0) (MayPost worker) }
    {
        let i = usize::from(board.0);
        i < self.desks.len() && self.desks[i].may_post(worker)
    }

    /// Whether the worker may bring the board home.
    fn may_report(&self, worker: u8, board: BoardNo) -> bool
        ensures { IsTrue result ↔ IsSomeAnd (slice_get self.now.boards board.0) (MayReport worker) }
    {
        let i = usize::from(board.0);
        i < self.desks.len() && self.desks[i].may_report(worker)
    }

    /// Whether the event may come next.
    pub fn legal(&self, e: &Event) -> bool
        ensures { IsTrue result ↔ IsLegal self.now e.now }
    {
        if self.is_ended {
            return false;
        }
        match *e {
            Event::Claim { board, slots, .. } => self.may_claim(board, slots),
            Event::Post { worker, board } => self.may_post(worker, board),
            Event::Report { worker, board } => self.may_report(worker, board),
            Event::Close => self.desks.iter().all(|desk| desk.is_done()),
        }
    }

    /// The worker takes the board for a turn of so many slots.
    fn claim(&mut self, worker: u8, board: BoardNo, slots: u64) -> Result<(), NoMemory>
        requires { IsSomeAnd (slice_get self.old.boards board.0) (MayClaim slots) }
        ensures claimed { OnOk result (self.new ≡ happened J.state_after self.old (Event.Claim worker board slots)) }
        ensures boards { length self.new.boards ≡ length self.old.boards }
    {
        self.desks[usize::from(board.0)].claim(worker, slots)
    }

    /// The worker sends the board's oldest unsent post.
    fn post(&mut self, worker: u8, board: BoardNo) -> Result<(), NoMemory>
        requires { IsSomeAnd (slice_get self.old.boards board.0) (MayPost worker) }
        ensures posted { OnOk result (self.new ≡ happened J.state_after self.old (Event.Post worker board)) }
        ensures boards { length self.new.boards ≡ length self.old.boards }
    {
        let desk = &mut self.desks[usize::from(board.0)];
        match desk.next_post() {
            Some(post) => {
                self.mail.push(Mailed { by: board, post })?;
                desk.drop_post();
                Ok(())
            }
            None => Ok(()),
        }
    }

    /// The worker brings the board home.
    fn report(&mut self, worker: u8, board: BoardNo)
        requires { IsSomeAnd (slice_get self.old.boards board.0) (MayReport worker) }
        ensures reported { self.new ≡ happened J.state_after self.old (Event.Report worker board) }
        ensures boards { length self.new.boards ≡ length self.old.boards }
    {
        self.desks[usize::from(board.0)].report();
    }

    /// Lets the event happen.
    fn happen(&mut self, e: &Event) -> Result<(), NoMemory>
        requires { IsLegal self.old e.now }
        ensures happened { OnOk result (self.new ≡ happened J.state_after self.old e.now) }
        ensures boards { length self.new.boards ≡ length self.old.boards }
    {
        match *e {
            Event::Claim {
                worker,
                board,
                slots,
            } => self.claim(worker, board, slots),
            Event::Post { worker, board } => self.post(worker, board),
            Event::Report { worker, board } => {
                self.report(worker, board);
                Ok(())
            }
            Event::Close => {
                self.is_ended = true;
                Ok(())
            }
        }
    }

    /// Lets the events happen in their order, up to the first that is not legal, or up to one at
    /// which memory runs out: the floor is ended then, and nothing more is said of it.
    pub fn run_events(&mut self, events: &[Event]) -> Ran
        ensures ran { ComesTo J.state_after self.old events.now result self.new }
        ensures boards { length self.new.boards ≡ length self.old.boards }
    {
        for (i, event) in events.iter().enumerate() {
            if !self.legal(event) {
                return Ran::Stopped(i);
            }
            let Ok(()) = self.happen(event) else {
                self.is_ended = true;
                return Ran::Starved(i);
            };
        }
        Ran::All
    }
}
