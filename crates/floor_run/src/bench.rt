//! The bench, on which boards change hands.
ghost use Rattle.std.specs.Prelude.{◌≡◌, ◌+◌, ◌<◌, ◌≤◌, [], length, All, IfOk, MatchOption};

use crate::closing::jobs_of;
use crate::hand::Hand;
use crate::opening::{cells_of, words_of};
use crate::rule::{BenchRule, Claim, Further, Report, TakesIn};
use crate::view::View;
use atomic_table::Table;
use floor_core::{Job, laws};
use lab_num::{BoardNo, NoMemory};
use std::alloc::Global;
use std::marker::Model;
use std::snapshot::Snapshot;

/// The boards of a round, each with its job, which hands take up and put down. Word 0 of the table
/// stays 0; word i + 1 says where board i is, and cell i holds its job.
#[derive(Drop)]
pub struct Bench<J: Job> {
    table: Table<Option<J>, View<J>, Snapshot<Vec<J>>, BenchRule, Global>,
    alloc: Global,
}

impl<J: Job> Model for Bench<J> {
    ghost use Rattle.std.specs.Prelude.{◌≡◌, ◌+◌, length};
    ghost use Rattle.floor_run.specs.Bench.{BenchModel};

    ghost Value = { BenchModel J };

    ghost view = { λ b. record { name = b.table.shared.table_id; starts = b.table.shared.key.value.items } };

    ghost invariant = { λ b.
        (b.table.shared.table_id.words ≡ length b.table.shared.key.value.items + 1) ×
        (b.table.shared.table_id.slots ≡ length b.table.shared.key.value.items) };
}

impl<J: Job> Bench<J> {
    ghost use Rattle.floor_run.specs.Bench.{IsHandOf, HoldsNothing};
    ghost use Rattle.floor_run.specs.Claim.{IsWon, IsMissed};
    ghost use Rattle.floor_run.specs.Close.{Closing};
    ghost use Rattle.floor_run.specs.Turns.{slots_left, AfterTurns, IsTurned};
    ghost use Rattle.floor_run.specs.View.{after_claim, empty_handed, fresh};

    /// Puts each job on a board of its own, at home, and gives a first hand.
    pub fn open(alloc: Global, jobs: Vec<J>) -> Result<(Bench<J>, Hand<J>), NoMemory>
        requires few { length jobs.items ≤ 16 }
        requires sent { All (λ job. (J.meaning job).unsent ≡ []) jobs.items }
        ensures starts { IfOk result (λ opened. opened.0.starts ≡ jobs.items) }
        ensures hand { IfOk result (λ opened.
            (opened.1.bench ≡ opened.0.name) × (opened.1.sees ≡ fresh jobs.items)) }
    {
        let starts = Snapshot::of(&jobs);
        let words = words_of(alloc, jobs.as_slice())?;
        let cells = cells_of(alloc, jobs)?;
        match Table::new(alloc, words.as_slice(), cells, &starts) {
            Ok((table, seat)) => Ok((
                Bench { table, alloc },
                Hand {
                    seat,
                    board: BoardNo(0),
                    reports: 0,
                },
            )),
            Err(_) => Err(NoMemory),
        }
    }

    /// A further hand, which holds nothing.
    pub fn split(&self, hand: &mut Hand<J>) -> Result<Hand<J>, NoMemory>
        requires { IsHandOf self.now hand.old }
        ensures same { hand.new ≡ hand.old }
        ensures further { IfOk result (λ other.
            (other.bench ≡ hand.old.bench) × (other.sees ≡ empty_handed hand.old.sees)) }
    {
        let board = hand.board;
        let seat = self.table.shared.split_seat::<Further>(&mut hand.seat);
        Ok(Hand {
            seat,
            board,
            reports: 0,
        })
    }

    /// Takes the board up, if it is at home with slots left.
    pub fn claim(&self, hand: &mut Hand<J>, board: BoardNo) -> Option<J>
        requires hand { IsHandOf self.now hand.old × HoldsNothing hand.old }
        requires board { board.0 < length self.now.starts }
        ensures bench { hand.new.bench ≡ hand.old.bench }
        ensures seen { hand.new.sees ≡ after_claim hand.old.sees board.0 hand.new.sees.found result }
        ensures told { MatchOption result (IsMissed hand.new.sees)
            (IsWon (slots_left J.meaning) (AfterTurns J.meaning J.sent J.state_after)
            self.now.starts hand.new.sees) }
    {
        let index = usize::from(board.0);
        let found = self
            .table
            .shared
            .fetch_or::<Claim>(&mut hand.seat, index + 1, 1);
        hand.board = board;
        hand.reports = found / 4;
        if found % 2 == 1 {
            return None;
        }
        self.table.shared.exchange(&mut hand.seat, index, None)
    }

    /// Puts the board down that the hand holds, with its job one turn later.
    pub fn report(&self, hand: &mut Hand<J>, job: J)
        requires hand { IsHandOf self.now hand.old }
        requires job { (claimed : J) × (hand.old.sees.held ≡ Some claimed) ×
            IsTurned J.meaning J.sent J.state_after claimed job }
        ensures bench { hand.new.bench ≡ hand.old.bench }
        ensures seen { hand.new.sees ≡ empty_handed hand.old.sees }
    {
        laws::turns_add_up::<J>();
        let turns = 4 * (hand.reports + 1);
        let word = if job.left() == 0 { turns + 3 } else { turns };
        let index = usize::from(hand.board.0);
        match self.table.shared.exchange(&mut hand.seat, index, Some(job)) {
            None => {}
            Some(_) => unreachable!(),
        }
        self.table
            .shared
            .store::<Report>(&mut hand.seat, index + 1, word);
    }

    /// Takes the other hand in.
    pub fn join(&self, hand: &mut Hand<J>, other: Hand<J>)
        requires hand { IsHandOf self.now hand.old × HoldsNothing hand.old }
        requires other { IsHandOf self.now other × HoldsNothing other }
        ensures { hand.new ≡ hand.old }
    {
        self.table
            .shared
            .join_seat::<TakesIn>(&mut hand.seat, other.into_seat());
    }

    /// Takes the jobs off, by board, but for those of boards that are out.
    pub fn close(self, hand: Hand<J>) -> Result<Vec<Option<J>>, NoMemory>
        requires { IsHandOf self hand × HoldsNothing hand }
        ensures { IfOk result (λ jobs.
            Closing (slots_left J.meaning) (AfterTurns J.meaning J.sent J.state_after)
            self.starts jobs.items) }
    {
        let Bench { table, alloc } = self;
        let jobs = Vec::with_capacity(alloc, table.slot_count())?;
        drop(hand);
        Ok(jobs_of(table.close(), jobs))
    }
}
