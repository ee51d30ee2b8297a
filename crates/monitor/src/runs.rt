//! Commands that run the laboratory: round by round, and what a round prints is written before the next one begins.
ghost use Rattle.std.specs.Prelude.{◌≡◌, ◌+◌, ◌<◌, ◌≤◌, true, false, Err, IfOk, OnErr, OnOk};
ghost use Rattle.lab_io.specs.Frame.{OnlyWrites};
ghost use Rattle.lab_state.specs.Names.{names as names_of};
ghost use Rattle.lab_state.specs.One.{HaveAllPlans};
ghost use Rattle.lab_state.specs.Round.{round};
ghost use Rattle.lab_state.specs.Run.{run};
ghost use Rattle.log_text.specs.Log.{open_lines, text};
ghost use Rattle.monitor.specs.Runs as runs;
ghost use Rattle.monitor.specs.Inner.Ruling.{IsOnward};
ghost use Rattle.monitor.specs.Inner.Writing.{IsPlayed, IsRunMade};

use crate::halt::Halt;
use crate::laws;
use crate::monitor::Monitor;
use crate::stop::Stop;
use board_job::BoxedBoardJob;
use dev_core::Device;
use floor_run::Gate;
use lab_io::{Sink, WriteFault, write_whole};
use lab_num::{Key, Micros, NoMemory};
use lab_state::{LabFault, RoundLog, RunCause, Team};
use log_merge::{LogItem, Names};
use probe_jobs::{Unwatched, Watcher};
use resc_vars::ScriptCause;
use std::sync::Wait;
use std::thread::{Threads, join_mut};

impl From<RunCause> for Stop {
    ghost use Rattle.std.specs.Prelude.{◌≡◌};
    ghost use Rattle.monitor.specs.Inner.Ruling.{may_stop};

    ghost from_gives = { λ cause stop. stop ≡ may_stop cause };

    fn from(cause: RunCause) -> Stop {
        match cause {
            RunCause::NoPlan(_) => Stop::Line(ScriptCause::Platform),
            RunCause::TooLong => Stop::Line(ScriptCause::LabTime),
        }
    }
}

impl<D: Device> Monitor<D> {
    /// Sets the quantum of the runs to come.
    pub(crate) fn quantum(&mut self, length: Micros) -> Vec<u8>
        requires unspent { self.old.spent ≡ false }
        requires waits { self.old.ended ≡ true }
        requires least { 1 ≤ length.0 }
        requires most { length.0 ≤ 1000000 }
        ensures done { runs.quantum self.old.state length.0
            ≡ record { text = result.items; state = self.new.state } }
        ensures onward { IsOnward self.old self.new }
    {
        self.lab.set_quantum(length.0);
        Vec::new(self.alloc)
    }

    /// The length of a run that is asked for, which is 0 where all runs are.
    fn length_of(&self, length: Micros) -> Micros
        ensures { result.0 ≡ runs.length_of self.now.state length.0 }
    {
        if self.dry { Micros(0) } else { length }
    }

    /// What is printed of these items of the log, under these names.
    fn print(&mut self, names: &Names, items: &[LogItem]) -> Result<Vec<u8>, NoMemory>
        requires { self.old.ended ≡ true }
        ensures text { IfOk result (λ printed. printed.items
            ≡ text names.now self.old.state.lines items.now) }
        ensures ok { OnOk result (self.new ≡ record self.old {
          state = record self.old.state { lines = open_lines self.old.state.lines items.now };
        }) }
        ensures err { OnErr result (self.new ≡ self.old) }
    {
        if items.is_empty() {
            return Ok(Vec::new(self.alloc));
        }
        self.lines.text(names, items)
    }
}

impl<D: Device + Send> Monitor<D> {
    /// Plays one round of `q` microseconds. Where memory runs out the laboratory is spent.
    fn play_silently<R: Threads + Wait + Copy + Send + Sync, G: Gate, W: Watcher<BoxedBoardJob<D>>>(
        &mut self,
        rt: &R,
        team: &Team<D>,
        q: u64,
        gate: &G,
        watcher: &mut W,
    ) -> Result<RoundLog, LabFault>
        requires unspent { self.old.spent ≡ false }
        requires waits { self.old.ended ≡ true }
        requires some { 0 < q }
        requires plans { HaveAllPlans self.old.state.lab }
        requires within { self.old.state.lab.now + q ≤ 10000000000 }
        ensures lab { OnOk result (self.new ≡ record self.old {
          state = record self.old.state { lab = (round self.old.state.lab q).lab };
        }) }
        ensures lines { IfOk result (λ log. log.lines ≡ (round self.old.state.lab q).items) }
        ensures paused { IfOk result (λ log. log.paused ≡ (round self.old.state.lab q).paused) }
        ensures plans { OnOk result (HaveAllPlans self.new.state.lab) }
        ensures ended { self.new.ended ≡ true }
    {
        self.lab.round_by(rt, team, q, self.workers, gate, watcher)
    }

    /// Plays one round of `q` microseconds and writes what it prints: by one write of a whole text, and by none where
    /// it has no lines. Gives its pause, if it has one.
    fn play_round<
        R: Threads + Wait + Copy + Send + Sync,
        K: Sink,
        G: Gate,
        W: Watcher<BoxedBoardJob<D>>,
    >(
        &mut self,
        rt: &R,
        team: &Team<D>,
        names: &Names,
        out: &mut K,
        q: u64,
        gate: &G,
        watcher: &mut W,
    ) -> Result<Option<Key>, WriteFault>
        requires unspent { self.old.spent ≡ false }
        requires waits { self.old.ended ≡ true }
        requires some { 0 < q }
        requires plans { HaveAllPlans self.old.state.lab }
        requires within { self.old.state.lab.now + q ≤ 10000000000 }
        ensures played { IsPlayed K.Sink names.now (round self.old.state.lab q)
            result self.old self.new out.old out.new }
        ensures paused { IfOk result (λ paused. paused ≡ (round self.old.state.lab q).paused) }
        ensures plans { OnOk result (HaveAllPlans self.new.state.lab) }
    {
        let Ok(log) = self.play_silently(rt, team, q, gate, watcher) else {
            return Err(WriteFault::Memory);
        };
        let Ok(text) = self.print(names, log.lines.items()) else {
            return Err(WriteFault::Memory);
        };
        match write_whole(out, &text) {
            Ok(()) => Ok(log.paused),
            Err(fault) => Err(fault),
        }
    }

    /// Plays the rounds of a run of `d` microseconds, one after another, up to one that has a pause.
    fn play_rounds<
        R: Threads + Wait + Copy + Send + Sync,
        K: Sink,
        G: Gate,
        W: Watcher<BoxedBoardJob<D>>,
    >(
        &mut self,
        rt: &R,
        team: &Team<D>,
        names: &Names,
        out: &mut K,
        d: u64,
        gate: &G,
        watcher: &mut W,
    ) -> Result<(), WriteFault>
        requires unspent { self.old.spent ≡ false }
        requires waits { self.old.ended ≡ true }
        requires plans { HaveAllPlans self.old.state.lab }
        requires within { self.old.state.lab.now + d ≤ 10000000000 }
        ensures { IsPlayed K.Sink names.now (run self.old.state.lab d)
            result self.old self.new out.old out.new }
    {
        log_text::laws::prints_join();
        let longest = self.lab.longest_round();
        let mut paused = None;
        let mut left = d;
        'rounds: while left > 0 && paused.is_none() {
            let q = left.min(longest);
            paused = self.play_round(rt, team, names, out, q, gate, watcher)?;
            left -= q;
        }
        Ok(())
    }

    /// The same beside the helpers of a team, who are let go at its end, where nobody watches.
    fn play_beside<R: Threads + Wait + Copy + Send + Sync, K: Sink, G: Gate>(
        &mut self,
        rt: &R,
        team: &Team<D>,
        names: &Names,
        out: &mut K,
        d: u64,
        gate: &G,
    ) -> Result<(), WriteFault>
        requires unspent { self.old.spent ≡ false }
        requires waits { self.old.ended ≡ true }
        requires plans { HaveAllPlans self.old.state.lab }
        requires within { self.old.state.lab.now + d ≤ 10000000000 }
        ensures { IsPlayed K.Sink names.now (run self.old.state.lab d)
            result self.old self.new out.old out.new }
    {
        let alloc = self.alloc;
        let mut help = move || team.help(rt, alloc, gate);
        let mut lead = || -> Result<(), WriteFault>
            requires { (self.now.spent ≡ false) × (self.now.ended ≡ true)
                × HaveAllPlans self.now.state.lab × (self.now.state.lab.now + d ≤ 10000000000) }
            ensures { IsPlayed K.Sink names.entry.now (run self.entry.now.state.lab d)
                result self.entry.now self.exit.now out.entry.now out.exit.now }
        {
            let mut unwatched = Unwatched::<BoxedBoardJob<D>>::new(alloc);
            let run = self.play_rounds(rt, team, names, out, d, gate, &mut unwatched);
            team.dismiss();
            run
        };
        let (_, run) = join_mut(rt, &mut help, &mut lead);
        run
    }

    /// Plays a run of `d` microseconds, by the caller alone or with helpers, who live as long as the run. A watcher who
    /// wants to be shown the boards has the caller run them alone.
    fn play<R: Threads + Wait + Copy + Send + Sync, K: Sink, G: Gate, W: Watcher<BoxedBoardJob<D>>>(
        &mut self,
        rt: &R,
        out: &mut K,
        d: Micros,
        gate: &G,
        watcher: &mut W,
    ) -> Result<(), WriteFault>
        requires unspent { self.old.spent ≡ false }
        requires waits { self.old.ended ≡ true }
        requires plans { HaveAllPlans self.old.state.lab }
        requires within { self.old.state.lab.now + d.0 ≤ 10000000000 }
        ensures { IsPlayed K.Sink (names_of self.old.state.lab) (run self.old.state.lab d.0)
            result self.old self.new out.old out.new }
    {
        let Ok(names) = self.lab.names() else {
            return Err(WriteFault::Memory);
        };
        let team = self.lab.team_for(d.0, self.workers, gate);
        if watcher.drives() || !team.has_helpers() {
            return self.play_rounds(rt, &team, &names, out, d.0, gate, watcher);
        }
        self.play_beside(rt, &team, &names, out, d.0, gate)
    }

    /// Runs the laboratory, and writes its log. Whether it may run goes by the length that is asked for.
    pub(crate) fn run_for<
        R: Threads + Wait + Copy + Send + Sync,
        K: Sink,
        G: Gate,
        W: Watcher<BoxedBoardJob<D>>,
    >(&mut self, rt: &R, out: &mut K, length: Micros, gate: &G, watcher: &mut W) -> Result<(), Halt>
        requires unspent { self.old.spent ≡ false }
        requires waits { self.old.ended ≡ true }
        ensures made { IsRunMade (runs.run_for run self.old.state length.0) result self.old self.new
            (K.written out.old) (K.written out.new) }
        ensures output { OnlyWrites K.Sink (result ≡ Err (Halt.Cut WriteFault.Unwritten))
            out.old out.new }
    {
        laws::runs_keep_names();
        self.lab.admit_run(length)?;
        let played = self.length_of(length);
        match self.play(rt, out, played, gate, watcher) {
            Ok(()) => Ok(()),
            Err(fault) => Err(Halt::Cut(fault)),
        }
    }

    /// Runs to the time of the setting, if that is still to come.
    pub(crate) fn start<
        R: Threads + Wait + Copy + Send + Sync,
        K: Sink,
        G: Gate,
        W: Watcher<BoxedBoardJob<D>>,
    >(&mut self, rt: &R, out: &mut K, gate: &G, watcher: &mut W) -> Result<(), Halt>
        requires unspent { self.old.spent ≡ false }
        requires waits { self.old.ended ≡ true }
        ensures made { IsRunMade (runs.start run self.old.state) result self.old self.new
            (K.written out.old) (K.written out.new) }
        ensures output { OnlyWrites K.Sink (result ≡ Err (Halt.Cut WriteFault.Unwritten))
            out.old out.new }
    {
        let length = self.until.0.saturating_sub(self.lab.now().0);
        self.run_for(rt, out, Micros(length), gate, watcher)
    }
}
