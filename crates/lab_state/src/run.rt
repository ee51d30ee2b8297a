//! Runs: rounds of one quantum each, and a shorter one for what is left.
ghost use Rattle.std.specs.Prelude.{◌≡◌, ℕ, ◌+◌, ◌<◌, ◌≤◌, ◌↔◌, ◌≢◌, ◌++◌, true, false, Some, fold, IfOk, OnOk, OnErr};
ghost use Rattle.lab_num.specs.declared.number.BoardNo.{BoardNo};
ghost use Rattle.lab_state.specs.One.{first_without, HaveAllPlans};
ghost use Rattle.lab_state.specs.Round.{round};
ghost use Rattle.lab_state.specs.Run as run_spec;
ghost use Rattle.lab_state.specs.Run.{go_on, lengths, still};
ghost use Rattle.lab_state.specs.Workers.{AreHandsFor};

use crate::faults::{LabFault, RunCause, RunFault};
use crate::lab::Lab;
use crate::round::{RoundLog, awake_slots};
use crate::team::{Team, WORTH_THREADS};
use board_job::BoxedBoardJob;
use dev_core::Device;
use floor_run::Gate;
use lab_num::{BoardNo, Key, LAST, Micros, Rows};
use log_merge::LogItem;
use probe_jobs::Unwatched;
use std::sync::Wait;
use std::thread::{Threads, join_mut};

/// The rounds of a run that take longer than starting threads, also where no board is awake.
const MANY_ROUNDS: u64 = 1_000;

impl<D: Device> Lab<D> {
    /// Whether a run of `d` microseconds may be made: every board has a plan, and the run ends within
    /// the time that a laboratory has. The first board without a plan is named, even where the run would
    /// be too long.
    pub fn admit_run(&self, d: Micros) -> Result<(), RunCause>
        requires { self.now.spent ≡ false }
        ensures ok { IfOk result (λ _. HaveAllPlans self.now.lab
            × (self.now.lab.now + d.0 ≤ 10000000000)) }
        ensures no_plan { (b : BoardNo) → (result ≡ Err (RunCause.NoPlan b))
            ↔ (first_without self.now.lab.boards ≡ Some b.0) }
        ensures too_long { (result ≡ Err RunCause.TooLong)
            ↔ (HaveAllPlans self.now.lab × (10000000000 < self.now.lab.now + d.0)) }
    {
        if let Some(board) = self.first_without_plan() {
            return Err(RunCause::NoPlan(board));
        }
        if d.0 > LAST.0 - self.now().0 {
            return Err(RunCause::TooLong);
        }
        Ok(())
    }

    /// The length in microseconds of the longest rounds that a run needs: the quantum. Where no board stands
    /// and nothing waits, only time goes on, and a round may be as long as the time of a laboratory.
    pub fn longest_round(&self) -> u64
        requires { self.now.spent ≡ false }
        ensures some { 0 < result }
        ensures same { (d : ℕ) → fold (go_on round) (still self.now.lab) (lengths result d)
            ≡ run_spec.run self.now.lab d }
    {
        if self.boards.is_empty() && self.pending.is_empty() {
            return LAST.0;
        }
        self.quantum
    }
}

impl<D: Device + Send> Lab<D> {
    /// Runs one round, and puts its items at the end of these. Gives its pause, if it has one.
    fn round_onto<R: Threads + Wait + Copy + Send + Sync, G: Gate>(
        &mut self,
        rt: &R,
        team: &Team<D>,
        lines: &mut Vec<LogItem>,
        q: u64,
        workers: u8,
        gate: &G,
    ) -> Result<Option<Key>, LabFault>
        requires unspent { self.old.spent ≡ false }
        requires some { 0 < q }
        requires workers { (1 ≤ workers) × (workers ≤ 8) }
        requires plans { HaveAllPlans self.old.lab }
        requires within { self.old.lab.now + q ≤ 10000000000 }
        ensures lab { OnOk result (self.new
            ≡ record { lab = (round self.old.lab q).lab; spent = false }) }
        ensures lines { OnOk result
            (lines.new.items ≡ lines.old.items ++ (round self.old.lab q).items) }
        ensures paused { IfOk result (λ paused. paused ≡ (round self.old.lab q).paused) }
        ensures plans { OnOk result (HaveAllPlans self.new.lab) }
        ensures err { OnErr result (self.new.spent ≡ true) }
    {
        let mut unwatched = Unwatched::<BoxedBoardJob<D>>::new(self.alloc);
        let log = self.round_by(rt, team, q, workers, gate, &mut unwatched)?;
        if lines.extend_from_slice(log.lines.items()).is_err() {
            self.spent = true;
            return Err(LabFault::Memory);
        }
        Ok(log.paused)
    }

    /// The rounds of a run. One does where nothing can happen.
    fn rounds<R: Threads + Wait + Copy + Send + Sync, G: Gate>(
        &mut self,
        rt: &R,
        team: &Team<D>,
        d: u64,
        workers: u8,
        gate: &G,
    ) -> Result<RoundLog, LabFault>
        requires unspent { self.old.spent ≡ false }
        requires workers { (1 ≤ workers) × (workers ≤ 8) }
        requires plans { HaveAllPlans self.old.lab }
        requires within { self.old.lab.now + d ≤ 10000000000 }
        ensures lab { OnOk result (self.new
            ≡ record { lab = (run_spec.run self.old.lab d).lab; spent = false }) }
        ensures lines { IfOk result (λ log. log.lines ≡ (run_spec.run self.old.lab d).items) }
        ensures paused { IfOk result (λ log. log.paused ≡ (run_spec.run self.old.lab d).paused) }
        ensures err { OnErr result (self.new.spent ≡ true) }
    {
        let longest = self.longest_round();
        let mut lines = Vec::new(self.alloc);
        let mut paused = None;
        let mut left = d;
        'rounds: while left > 0 && paused.is_none() {
            let q = left.min(longest);
            paused = self.round_onto(rt, team, &mut lines, q, workers, gate)?;
            left -= q;
        }
        Ok(RoundLog {
            lines: Rows::of(lines),
            paused,
        })
    }

    /// The helpers of a run of `d` microseconds by so many workers, where it is worth them: its boards have slots
    /// enough, or it has so many rounds that boards which are asleep may wake up meanwhile, or the gate may hold
    /// someone. Who leads the run has them `help` beside it, and dismisses them.
    pub fn team_for<G: Gate>(&self, d: u64, workers: u8, gate: &G) -> Team<D>
        ensures { AreHandsFor self.now.lab d workers result.hands }
    {
        if workers == 1 || self.boards.len() <= 1 {
            return Team::none();
        }
        let is_long = self.quantum.saturating_mul(MANY_ROUNDS) <= d
            || awake_slots(&self.boards, d) >= WORTH_THREADS;
        if gate.is_open() && !is_long {
            return Team::none();
        }
        let most = usize::from(workers).min(self.boards.len()) as u8;
        Team::new(self.alloc, most)
    }

    /// The rounds of a run, by the caller alone or with helpers, who live as long as the run.
    fn rounds_by<R: Threads + Wait + Copy + Send + Sync, G: Gate>(
        &mut self,
        rt: &R,
        d: u64,
        workers: u8,
        gate: &G,
    ) -> Result<RoundLog, LabFault>
        requires unspent { self.old.spent ≡ false }
        requires workers { (1 ≤ workers) × (workers ≤ 8) }
        requires plans { HaveAllPlans self.old.lab }
        requires within { self.old.lab.now + d ≤ 10000000000 }
        ensures lab { OnOk result (self.new
            ≡ record { lab = (run_spec.run self.old.lab d).lab; spent = false }) }
        ensures lines { IfOk result (λ log. log.lines ≡ (run_spec.run self.old.lab d).items) }
        ensures paused { IfOk result (λ log. log.paused ≡ (run_spec.run self.old.lab d).paused) }
        ensures err { OnErr result (self.new.spent ≡ true) }
    {
        let team = self.team_for(d, workers, gate);
        if !team.has_helpers() {
            return self.rounds(rt, &team, d, workers, gate);
        }
        self.rounds_beside(rt, &team, d, workers, gate)
    }

    /// The rounds of a run beside the helpers of a team with hands for it, who are let go at its end.
    fn rounds_beside<R: Threads + Wait + Copy + Send + Sync, G: Gate>(
        &mut self,
        rt: &R,
        team: &Team<D>,
        d: u64,
        workers: u8,
        gate: &G,
    ) -> Result<RoundLog, LabFault>
        requires unspent { self.old.spent ≡ false }
        requires hands { AreHandsFor self.old.lab d workers team.now.hands }
        requires workers { (1 ≤ workers) × (workers ≤ 8) }
        requires plans { HaveAllPlans self.old.lab }
        requires within { self.old.lab.now + d ≤ 10000000000 }
        ensures lab { OnOk result (self.new
            ≡ record { lab = (run_spec.run self.old.lab d).lab; spent = false }) }
        ensures lines { IfOk result (λ log. log.lines ≡ (run_spec.run self.old.lab d).items) }
        ensures paused { IfOk result (λ log. log.paused ≡ (run_spec.run self.old.lab d).paused) }
        ensures err { OnErr result (self.new.spent ≡ true) }
    {
        let alloc = self.alloc;
        let mut help = move || team.help(rt, alloc, gate);
        let mut lead = || -> Result<RoundLog, LabFault>
            requires { (self.now.spent ≡ false) × (1 ≤ workers) × (workers ≤ 8)
                × HaveAllPlans self.now.lab × (self.now.lab.now + d ≤ 10000000000) }
            ensures lab { OnOk result (self.exit.now
                ≡ record { lab = (run_spec.run self.entry.now.lab d).lab; spent = false }) }
            ensures lines { IfOk result (λ log.
                log.lines ≡ (run_spec.run self.entry.now.lab d).items) }
            ensures paused { IfOk result (λ log.
                log.paused ≡ (run_spec.run self.entry.now.lab d).paused) }
            ensures err { OnErr result (self.exit.now.spent ≡ true) }
        {
            let run = self.rounds(rt, team, d, workers, gate);
            team.dismiss();
            run
        };
        let (_, run) = join_mut(rt, &mut help, &mut lead);
        run
    }

    /// Runs for `d` microseconds: rounds of one quantum each, and then a shorter one if the quanta
    /// do not fill `d`. A run of 0 changes nothing. The boards are run by so many workers, who enter
    /// the gate as in a round. `RunFault::Memory` spends the laboratory.
    pub fn run_for<R: Threads + Wait + Copy + Send + Sync, G: Gate>(
        &mut self,
        rt: &R,
        d: Micros,
        workers: u8,
        gate: &G,
    ) -> Result<RoundLog, RunFault>
        requires workers { (1 ≤ workers) × (workers ≤ 8) }
        ensures lab { OnOk result (self.new
            ≡ record { lab = (run_spec.run self.old.lab d.0).lab; spent = false }) }
        ensures lines { IfOk result (λ log. log.lines ≡ (run_spec.run self.old.lab d.0).items) }
        ensures paused { IfOk result (λ log. log.paused ≡ (run_spec.run self.old.lab d.0).paused) }

        // The first board without a plan is named, even where the run would be too long.
        ensures no_plan { (b : BoardNo) → (result ≡ Err (RunFault.NoPlan b))
            ↔ ((self.old.spent ≡ false) × (first_without self.old.lab.boards ≡ Some b.0)) }
        ensures too_long { (result ≡ Err RunFault.TooLong)
            ↔ ((self.old.spent ≡ false) × HaveAllPlans self.old.lab
            × (10000000000 < self.old.lab.now + d.0)) }
        ensures unchanged { OnErr result (result ≢ Err RunFault.Memory → self.new ≡ self.old) }
        ensures memory { result ≡ Err RunFault.Memory → self.new.spent ≡ true }
        ensures spent { self.old.spent ≡ true → result ≡ Err RunFault.Memory }
    {
        if self.spent {
            return Err(RunFault::Memory);
        }
        self.admit_run(d)?;
        let run = self.rounds_by(rt, d.0, workers, gate)?;
        Ok(run)
    }
}
