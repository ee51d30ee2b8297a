//! A script and the laboratory that its commands work on.
ghost use Rattle.std.specs.Prelude.{◌≡◌, ◌≤◌, ◌^◌, [], length, true, false, IfOk, IfSome};
ghost use Rattle.std.specs.Prelude.{OnOk, OnErr, All};
ghost use Rattle.std.specs.Option.{ForSome};
ghost use Rattle.std.specs.String.{string_bytes};
ghost use Rattle.dev_core.specs.Stock.{IsFull};
ghost use Rattle.lab_io.specs.Frame.{OnlyReads, OnlyWrites};
ghost use Rattle.lab_state.specs.Names.{names};
ghost use Rattle.lab_state.specs.Run.{run};
ghost use Rattle.lab_state.specs.Valid.{IsOpen, IsValid};
ghost use Rattle.log_text.specs.Log.{rest};
ghost use Rattle.resc_read.specs.Line.{line_of};
ghost use Rattle.monitor.specs.Answer.{Misses};
ghost use Rattle.monitor.specs.Command.{did, done_by};
ghost use Rattle.monitor.specs.Progress.{stands_for, IsProgress};
ghost use Rattle.monitor.specs.State.{bodies_of, joined, started};
ghost use Rattle.monitor.specs.Step.{going, IsStep, IsNext, IsCut, IsCounted};
ghost use Rattle.monitor.specs.Inner.Ruling.{IsAfterLine};
ghost use Rattle.monitor.specs.Inner.Writing.{IsWritten, progress_of};

use crate::bodies::Bodies;
use crate::fault::{Cause, ScriptFault};
use crate::halt::Halt;
use crate::progress::Progress;
use crate::setting::Setting;
use crate::step::Step;
use crate::stop::{Stop, Storing};
use crate::text_sink::TextSink;
use board_job::BoxedBoardJob;
use dev_core::{Device, Stock};
use floor_run::Gate;
use lab_io::{Files, Sink, WriteFault};
use lab_num::{BoardNo, Micros, NoMemory, Rows, Text};
use lab_state::Lab;
use log_text::Lines;
use probe_jobs::{Unwatched, Watcher};
use resc_read::read_line;
use resc_vars::{Flow, Next};
use std::alloc::Global;
use std::marker::Model;
use std::sync::Wait;
use std::thread::Threads;

/// A script, between two of its commands, and the laboratory that they work on.
#[derive(Drop)]
pub struct Monitor<D: Device> {
    pub(crate) alloc: Global,
    pub(crate) flow: Flow,
    pub(crate) lab: Lab<D>,
    pub(crate) selected: Option<BoardNo>,
    pub(crate) lines: Lines,
    pub(crate) workers: u8,
    pub(crate) until: Micros,
    pub(crate) dry: bool,
    pub(crate) ended: bool,
}

impl<D: Device> Model for Monitor<D> {
    ghost use Rattle.std.specs.Prelude.{◌≡◌, ◌≤◌, false, All};
    ghost use Rattle.std.specs.Option.{option_map};
    ghost use Rattle.lab_state.specs.Valid.{IsOpen};
    ghost use Rattle.monitor.specs.Step.{Running};

    ghost Value = { Running };

    ghost view = { λ m. record {
      state = record {
        flow = m.flow;
        lab = m.lab.lab;
        selected = option_map (λ b. b.0) m.selected;
        lines = m.lines;
        until = m.until.0;
        dry = m.dry;
      };
      workers = m.workers;
      spent = m.lab.spent;
      ended = m.ended;
    } };

    ghost invariant = { λ m. (m.ended ≡ false → (m.flow.ended ≡ false) × (m.lab.spent ≡ false)
        × All (IsOpen m.lab.lab) m.lines) × (1 ≤ m.workers) × (m.workers ≤ 8) };
}

impl<D: Device> Monitor<D> {
    /// A monitor before the first line of a script with this text, in a file of this name, and an
    /// empty laboratory at time 0. Boards are made of the devices of the stock.
    pub fn new(
        alloc: Global,
        script: &str,
        text: String,
        stock: Stock<D>,
        setting: Setting,
    ) -> Result<Monitor<D>, NoMemory>
        requires full { IsFull D.meaning stock }
        requires size { length (string_bytes text) ≤ 2 ^ 24 }
        requires some_worker { 1 ≤ setting.workers }
        requires few_workers { setting.workers ≤ 8 }
        ensures { IfOk result (λ monitor.
            monitor ≡ going setting.workers (started script.now (string_bytes text) setting)) }
    {
        let flow = Flow::new(alloc, script, text)?;
        let lab = Lab::new(alloc, stock)?;
        Ok(Monitor {
            alloc,
            flow,
            lab,
            selected: None,
            lines: Lines::new(alloc),
            workers: setting.workers,
            until: setting.until,
            dry: setting.dry,
            ended: false,
        })
    }

    /// The laboratory. Until the script has ended it and the open lines can go on.
    pub fn lab(&self) -> &Lab<D>
        ensures lab { result.now ≡ record { lab = self.now.state.lab; spent = self.now.spent } }
        ensures unspent { self.now.ended ≡ false → self.now.spent ≡ false }
        ensures valid { self.now.ended ≡ false → IsValid self.now.state.lab self.now.state.lines }
    {
        self.validity_law();
        &self.lab
    }

    /// The open lines of the log.
    pub fn lines(&self) -> &Lines
        ensures { result.now ≡ self.now.state.lines }
    {
        &self.lines
    }

    /// Whether each run has length 0.
    pub fn is_dry(&self) -> bool
        ensures { result ≡ self.now.state.dry }
    {
        self.dry
    }

    /// Of a monitor whose script has not ended the laboratory and the open lines can go on. This changes nothing.
    fn validity_law(&self)
        ensures unspent { self.now.ended ≡ false → self.now.spent ≡ false }
        ensures valid { self.now.ended ≡ false → IsValid self.now.state.lab self.now.state.lines }
    {
        if !self.ended {
            self.lab.validity_law();
            let _lines = self.lines.unended();
        }
    }

    /// Takes the monitor apart: the script, the laboratory and the open lines of its log.
    pub fn split(self) -> (Bodies, Lab<D>, Lines)
        ensures bodies { result.0 ≡ record { script = bodies_of self.state; workers = self.workers } }
        ensures lab { result.1 ≡ record { lab = self.state.lab; spent = self.spent } }
        ensures lines { result.2 ≡ self.state.lines }
        ensures goes_on { self.ended ≡ false → self.state.flow.ended ≡ false }
        ensures unspent { self.ended ≡ false → self.spent ≡ false }
        ensures valid { self.ended ≡ false → IsValid self.state.lab self.state.lines }
    {
        self.validity_law();
        let bodies = Bodies {
            alloc: self.alloc,
            flow: self.flow,
            workers: self.workers,
            until: self.until,
            dry: self.dry,
        };
        (bodies, self.lab, self.lines)
    }

    /// A monitor that goes on with the script in this laboratory, of whose log these lines are open. No board is
    /// selected.
    pub fn join(bodies: Bodies, lab: Lab<D>, lines: Lines) -> Monitor<D>
        requires goes_on { bodies.script.flow.ended ≡ false }
        requires unspent { lab.spent ≡ false }
        requires valid { IsValid lab.lab lines }
        ensures { result ≡ going bodies.workers (joined bodies.script lab.lab lines) }
    {
        Monitor {
            alloc: bodies.alloc,
            flow: bodies.flow,
            lab,
            selected: None,
            lines,
            workers: bodies.workers,
            until: bodies.until,
            dry: bodies.dry,
            ended: false,
        }
    }

    /// What is printed of the lines that are open where the script ends. None is open afterwards.
    pub fn rest(&mut self) -> Result<Vec<u8>, NoMemory>
        requires { self.old.spent ≡ false }
        ensures text { IfOk result (λ text. text.items
            ≡ rest (names self.old.state.lab) self.old.state.lines) }
        ensures ok { OnOk result (self.new
            ≡ record self.old { state = record self.old.state { lines = [] } }) }
        ensures err { OnErr result (self.new ≡ self.old) }
    {
        let names = self.lab.names()?;
        self.lines.rest(&names)
    }
}

impl<D: Device + Send> Monitor<D> {
    /// Carries out the next command of the script, and answers what it prints. Files that it names are read from
    /// `files`. Any answer but `Text`, `Save` and `Load` ends the script. Where several workers run several boards,
    /// each enters the gate before each turn.
    pub fn step<R: Threads + Wait + Copy + Send + Sync, F: Files, G: Gate>(
        &mut self,
        rt: &R,
        files: &mut F,
        gate: &G,
    ) -> Step
        requires { self.old.ended ≡ false }

        // It has done what its definition says and has asked for just its names, or was cut short by
        // a read or for want of memory, and has asked for the first of them.
        ensures step { IfSome (F.held files.old) (λ held.
            IsStep (did run held self.old.state) result self.new.state
            (F.asked files.old) (F.asked files.new)) }

        // Where a name holds nothing, it is cut short.
        ensures absent { IfSome (F.held files.old) (λ held.
            (did run held self.old.state).answer ≡ Misses → IsCut result) }

        // Any answer but a text and what is for the store ends it. Every answer but a text and want of
        // memory leaves the laboratory, what is open of its log, the variables and the macros as they
        // were, and does not spend it. The number of workers stays.
        ensures next { IsNext result self.old self.new }

        // A step that says something or is for the store takes a command or more, of 100,000.
        ensures counted { IsCounted result self.old.state self.new.state }

        // Of files it only reads, and only a fault that was counted makes it unread.
        ensures files { OnlyReads F.Files (result ≡ Step.Unread) files.old files.new }
    {
        let mut out = TextSink::new(self.alloc);
        let mut unwatched = Unwatched::<BoxedBoardJob<D>>::new(self.alloc);
        match self.step_to(rt, files, &mut out, gate, &mut unwatched) {
            Progress::Done => Step::Text(Rows::of(out.text)),
            Progress::Cut(_) => Step::Memory,
            Progress::Save { name, file, line } => Step::Save { name, file, line },
            Progress::Load { name, file, line } => Step::Load { name, file, line },
            Progress::End => Step::End,
            Progress::Fault(fault) => Step::Fault(fault),
            Progress::Unread => Step::Unread,
            Progress::Memory => Step::Memory,
        }
    }

    /// Carries out the next command of the script, and writes what it prints. What a round of a run prints is written
    /// before the next round begins: by one `write_whole`, and by none where it has no lines. Files that the command
    /// names are read from `files`. Any answer but `Done`, `Save` and `Load` ends the script. Where several workers run
    /// several boards, each enters the gate before each turn. A watcher who wants to be shown the boards has the caller
    /// run them alone. What is promised holds of every watcher.
    pub fn step_to<
        R: Threads + Wait + Copy + Send + Sync,
        F: Files,
        K: Sink,
        G: Gate,
        W: Watcher<BoxedBoardJob<D>>,
    >(&mut self, rt: &R, files: &mut F, out: &mut K, gate: &G, watcher: &mut W) -> Progress
        requires { self.old.ended ≡ false }

        // It has done what its definition says, has asked for just its names and has written what the command
        // prints; or was cut short by a read or for want of memory, and has asked for the first of the names; or
        // by a write or for want of memory, and has written the beginning of the text.
        ensures step { IfSome (F.held files.old) (λ held.
            IsProgress (did run held self.old.state) result self.new.state
            (F.asked files.old) (F.asked files.new) (K.written out.old) (K.written out.new)) }

        // Where a name holds nothing, it is cut short.
        ensures absent { IfSome (F.held files.old) (λ held.
            (did run held self.old.state).answer ≡ Misses → IsCut (stands_for result)) }

        // What it leaves, and how many commands it takes, are those of a step.
        ensures next { IsNext (stands_for result) self.old self.new }
        ensures counted { IsCounted (stands_for result) self.old.state self.new.state }

        // Of files it only reads, and only a fault that was counted makes it unread. Only one of the output that
        // was counted makes it unwritten.
        ensures files { OnlyReads F.Files (result ≡ Progress.Unread) files.old files.new }
        ensures output { OnlyWrites K.Sink (result ≡ Progress.Cut WriteFault.Unwritten) out.old out.new }
    {
        self.ended = true;
        match self.flow.next() {
            Next::Line { file, line, text } => {
                self.take_line(rt, files, out, file, line, text.as_str(), gate, watcher)
            },
            Next::End => Progress::End,
            Next::Fault { file, line, cause } => fault_at(file, line, Cause::Script(cause)),
            Next::Memory => Progress::Memory,
        }
    }

    /// Does what a line asks for. The script goes on where it says something or is for the store.
    fn take_line<
        R: Threads + Wait + Copy + Send + Sync,
        F: Files,
        K: Sink,
        G: Gate,
        W: Watcher<BoxedBoardJob<D>>,
    >(
        &mut self,
        rt: &R,
        files: &mut F,
        out: &mut K,
        file: Text,
        line: u32,
        text: &str,
        gate: &G,
        watcher: &mut W,
    ) -> Progress
        requires goes_on { self.old.state.flow.ended ≡ false }
        requires unspent { self.old.spent ≡ false }
        requires waits { self.old.ended ≡ true }
        requires open { All (IsOpen self.old.state.lab) self.old.state.lines }
        ensures step { ForSome (F.held files.old) (λ held. IsProgress
            (done_by run held self.old.state (record { file = file; number = line }) (line_of text.now))
            result self.new.state (F.asked files.old) (F.asked files.new)
            (K.written out.old) (K.written out.new)) }
        ensures next { IsAfterLine (stands_for result) self.old self.new }
        ensures files { OnlyReads F.Files (result ≡ Progress.Unread) files.old files.new }
        ensures output { OnlyWrites K.Sink (result ≡ Progress.Cut WriteFault.Unwritten) out.old out.new }
    {
        match self.carry_out_line(rt, files, out, text, gate, watcher) {
            Ok(()) => {
                self.ended = false;
                Progress::Done
            }
            Err(Halt::Stop(stop)) => {
                self.ended = stop.ends_script();
                stopped(file, line, stop)
            }
            Err(Halt::Cut(fault)) => Progress::Cut(fault),
        }
    }

    /// Carries out the command of a line.
    fn carry_out_line<
        R: Threads + Wait + Copy + Send + Sync,
        F: Files,
        K: Sink,
        G: Gate,
        W: Watcher<BoxedBoardJob<D>>,
    >(
        &mut self,
        rt: &R,
        files: &mut F,
        out: &mut K,
        text: &str,
        gate: &G,
        watcher: &mut W,
    ) -> Result<(), Halt>
        requires goes_on { self.old.state.flow.ended ≡ false }
        requires unspent { self.old.spent ≡ false }
        requires waits { self.old.ended ≡ true }
        ensures { IsWritten F.Files K.Sink
            (λ held place. done_by run held self.old.state place (line_of text.now))
            result self.old self.new files.old files.new out.old out.new }
    {
        let command = read_line(self.alloc, text)?;
        self.carry_out_to(rt, files, out, command, gate, watcher)
    }
}

/// A line is refused.
fn fault_at(file: Text, line: u32, cause: Cause) -> Progress
    ensures { result ≡ Progress.Fault (record { file = file; line = line; cause = cause }) }
{
    Progress::Fault(ScriptFault { file, line, cause })
}

/// What a step answers at a line after which the monitor does not go on.
fn stopped(file: Text, line: u32, stop: Stop) -> Progress
    ensures { result ≡ progress_of (record { file = file; number = line }) stop }
{
    match stop {
        Stop::Store(Storing::Save(name)) => Progress::Save { name, file, line },
        Stop::Store(Storing::Load(name)) => Progress::Load { name, file, line },
        Stop::Quit => Progress::End,
        Stop::Line(cause) => fault_at(file, line, Cause::Script(cause)),
        Stop::File(fault) => Progress::Fault(fault),
        Stop::Content(cause) => fault_at(file, line, cause),
        Stop::Unread => Progress::Unread,
        Stop::Memory => Progress::Memory,
    }
}
