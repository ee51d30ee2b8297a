//! A board with its grant and its pass.
ghost use Rattle.std.specs.Prelude.{◌≡◌, ◌+◌, ◌<◌, ◌^◌, ◌++◌, List, [], IsTrue};
ghost use Rattle.dev_core.specs.declared.post.Post as post;
ghost use Rattle.board_job.specs.Inner.Posting.{MayPost};
ghost use Rattle.time_handle.specs.Grant.{left as left_of};

use crate::laws;
use board::{Board, SlotAt, Turn as Stretch};
use dev_core::{Device, Post};
use floor_core::{Job, Turn};
use hub_mail::Pass;
use probe_jobs::Timed;
use std::marker::Model;
use std::sync::Wait;
use std::thread::Threads;
use time_handle::Handle;

/// A board, its grant, and the pass by which its posts go out.
#[derive(Drop)]
pub struct BoardJob<D: Device> {
    board: Board<D>,
    handle: Handle,
    pass: Pass,
}

impl<D: Device> Model for BoardJob<D> {
    ghost use Rattle.board_job.specs.BoardJob.{BoardJob};
    ghost use Rattle.board_job.specs.Inner.Posting.{MayPost};
    ghost use Rattle.board_job.specs.Inner.Room.{IsPaid};

    ghost Value = { BoardJob };

    ghost view = { λ p. record { board = p.board; grant = p.handle; pass = p.pass } };

    ghost invariant = { λ p. IsPaid p.board.view.numbers p.handle ×
        MayPost p.board.view.numbers p.board.posts p.pass };
}

/// Posts what a board has made and nobody has sent, oldest first, and says whether all is posted.
fn send_posts<R: Wait, D: Device>(rt: &R, board: &mut Board<D>, pass: &mut Pass) -> bool
    requires { MayPost board.old.view.numbers board.old.posts pass.old }
    ensures rest { board.new ≡ record board.old { posts = board.new.posts } }
    ensures front { (front : List post.Post) ×
        (board.old.posts ≡ front ++ board.new.posts) ×
        (pass.new ≡ record pass.old { posted = pass.old.posted ++ front }) }
    ensures may { MayPost board.new.view.numbers board.new.posts pass.new }
    ensures all { IsTrue result → board.new.posts ≡ [] }
{
    while let Some(post) = board.next_post() {
        let Ok(()) = pass.post(rt, post) else {
            return false;
        };
        board.drop_post();
    }
    true
}

impl<D: Device> BoardJob<D> {
    /// A board that has a grant at its speed, and whose counts of posts and entries have room for
    /// one of each slot that is left. All that it has made was taken, and its pass is new.
    pub fn new(board: Board<D>, handle: Handle, pass: Pass) -> BoardJob<D>
        requires speed { handle.speed ≡ board.view.numbers.speed }
        requires posts { board.view.numbers.posted + left_of handle < 2 ^ 64 }
        requires entries { board.view.numbers.entered + left_of handle < 2 ^ 64 }
        requires none { board.posts ≡ [] }
        requires own { pass.board ≡ board.view.numbers.number }
        requires new { pass.posted ≡ [] }
        ensures { result ≡ record { board = board; grant = handle; pass = pass } }
    {
        BoardJob {
            board,
            handle,
            pass,
        }
    }

    pub fn board(&self) -> &Board<D>
        ensures { result.now ≡ self.now.board }
    {
        &self.board
    }

    pub fn handle(&self) -> Handle
        ensures value { result ≡ self.now.grant }
        ensures speed { result.speed ≡ self.now.board.view.numbers.speed }
    {
        self.handle
    }

    /// The board, its grant, and its pass.
    pub fn into_parts(self) -> (Board<D>, Handle, Pass)
        ensures board { result.0 ≡ self.board }
        ensures grant { result.1 ≡ self.grant }
        ensures pass { result.2 ≡ self.pass }
    {
        (self.board, self.handle, self.pass)
    }
}

impl<D: Device + Send> Job for BoardJob<D> {
    ghost use Rattle.board_job.specs.Slots as slots;
    ghost use Rattle.board_job.specs.Inner.Moves.{state-add, state-none};

    type State = ((Board<D>, Handle), Pass);

    ghost meaning = { λ p. slots.job_of p.board p.grant p.pass };

    ghost sent = { λ p. p.pass.posted };

    ghost state_after = { slots.state_after };

    fn left(&self) -> u64 {
        self.handle.left()
    }

    fn turn(&mut self, limit: u64) -> Turn {
        laws::turns_are_stretches();
        board::laws::stretches_number();
        let n = limit.min(self.handle.left());
        let at = SlotAt {
            from: self.handle.from(),
            first: self.handle.taken(),
        };
        match self.board.turn(at, n) {
            Stretch::Used(taken) => {
                self.handle.used(taken);
                Turn::Used(taken)
            }
            Stretch::Starved(taken) => {
                self.handle.used(taken);
                Turn::Starved(taken)
            }
        }
    }

    fn next_post(&self) -> Option<Post> {
        self.board.next_post()
    }

    fn drop_post(&mut self) {
        self.board.drop_post();
    }

    fn send_out<R: Threads + Wait + Copy + Send + Sync>(&mut self, rt: &R) -> bool {
        send_posts(rt, &mut self.board, &mut self.pass)
    }

    ghost adds = { λ s coming a b _. state-add s coming a b };

    ghost rests = { state-none };
}

impl<D: Device + Send> Timed for BoardJob<D> {
    ghost use Rattle.board_job.specs.Slots.{idled};
    ghost use Rattle.board_job.specs.Inner.Moves.{state-rises};
    ghost use Rattle.time_handle.specs.Grant.{elapsed};

    ghost time = { λ s. elapsed s.0.1 };

    ghost idled = { idled };

    fn time(&self) -> u64 {
        self.handle.elapsed().0
    }

    fn pass(&mut self, limit: u64) -> u64 {
        laws::turns_are_stretches();
        board::laws::stretches_number();
        let most = limit.min(self.handle.left());
        let at = SlotAt {
            from: self.handle.from(),
            first: self.handle.taken(),
        };
        let passed = self.board.pass(at, most);
        self.handle.used(passed);
        passed
    }

    ghost rises = { state-rises };
}
