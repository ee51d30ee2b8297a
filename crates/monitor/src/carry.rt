//! Each command is carried out.
ghost use Rattle.std.specs.Prelude.{◌≡◌, ◌≢◌, true, false};
ghost use Rattle.lab_num.specs.declared.number.Micros.{Micros};
ghost use Rattle.lab_state.specs.Run.{run};
ghost use Rattle.monitor.specs.Command.{does, work};
ghost use Rattle.monitor.specs.Inner.Ruling.{IsWithin, IsWorked};
ghost use Rattle.monitor.specs.Inner.Writing.{IsWritten};

use crate::halt::Halt;
use crate::images::Format;
use crate::load::Load;
use crate::monitor::Monitor;
use crate::stop::{Stop, Storing};
use board_job::BoxedBoardJob;
use dev_core::Device;
use floor_run::Gate;
use lab_io::{Files, Sink, write_whole};
use lab_state::laws;
use probe_jobs::Watcher;
use resc_read::{Command, LineFault};
use resc_vars::ScriptCause;
use std::sync::Wait;
use std::thread::Threads;

impl From<LineFault> for Stop {
    ghost use Rattle.std.specs.Prelude.{◌≡◌};
    ghost use Rattle.monitor.specs.Inner.Ruling.{line_stop};

    ghost from_gives = { λ fault stop. stop ≡ line_stop fault };

    fn from(fault: LineFault) -> Stop {
        match fault {
            LineFault::Unknown => Stop::Line(ScriptCause::Unknown),
            LineFault::Arguments => Stop::Line(ScriptCause::Arguments),
            LineFault::Time => Stop::Line(ScriptCause::Time),
            LineFault::Memory => Stop::Memory,
        }
    }
}

impl<D: Device> Monitor<D> {
    /// Carries out a command that is no run.
    fn carry_out<F: Files>(&mut self, files: &mut F, command: Command) -> Result<Vec<u8>, Stop>
        requires unspent { self.old.spent ≡ false }
        requires waits { self.old.ended ≡ true }
        requires goes_on { self.old.state.flow.ended ≡ false }
        requires within { IsWithin command }
        requires no_run { (length : Micros) → command ≢ Command.RunFor length }
        requires no_start { command ≢ Command.Start }
        ensures { IsWorked F.Files (work run self.old.state command)
            result self.old self.new files.old files.new }
    {
        match command {
            // Those that read files.
            Command::LoadPlatform { path } => self.load_platform(files, path.as_str()),
            Command::LoadElf { path } => self.load(files, Load::Image(Format::Elf), path.as_str()),
            Command::LoadBinary { path, at } => self.load(files, Load::Bytes(at), path.as_str()),
            Command::LoadHex { path } => self.load(files, Load::Image(Format::Hex), path.as_str()),
            Command::Include { path } => self.include(files, path.as_str()),

            // Those that change the laboratory or the bodies alone.
            Command::Create { name } => self.create(name),
            Command::Select { name } => self.select(name.as_str()),
            Command::Reset => self.reset_board(),
            Command::ReadWord { at } => self.read_word(at),
            Command::WriteWord { at, value } => self.write_word(at, value),
            Command::Pc { cpu, value } => self.pc(cpu.as_str(), value),
            Command::Halted { cpu, value } => self.halted(cpu.as_str(), value),
            Command::Mips { cpu, value } => self.mips(cpu.as_str(), value),
            Command::Quantum { length } => Ok(self.quantum(length)),
            Command::UartHub { name, delay } => self.uart_hub(name.as_str(), delay),
            Command::CanHub { name, delay } => self.can_hub(name.as_str(), delay),
            Command::Connect { dev, hub } => self.connect(dev.as_str(), hub.as_str()),
            Command::Show { dev } => self.show(dev.as_str()),
            Command::RunMacro { name } => self.run_macro(name.as_str()),
            Command::UsingSysbus | Command::Pause => Ok(Vec::new(self.alloc)),

            // Those that are for the store.
            Command::Save { path } => Err(Stop::Store(Storing::Save(path))),
            Command::Load { path } => Err(Stop::Store(Storing::Load(path))),

            // The one that ends the script.
            Command::Quit => Err(Stop::Quit),

            // Those that run the laboratory.
            Command::RunFor { length: _ } => unreachable!(),
            Command::Start => unreachable!(),
        }
    }
}

impl<D: Device + Send> Monitor<D> {
    /// Carries out a command, and writes what it prints.
    pub(crate) fn carry_out_to<
        R: Threads + Wait + Copy + Send + Sync,
        F: Files,
        K: Sink,
        G: Gate,
        W: Watcher<BoxedBoardJob<D>>,
    >(
        &mut self,
        rt: &R,
        files: &mut F,
        out: &mut K,
        command: Command,
        gate: &G,
        watcher: &mut W,
    ) -> Result<(), Halt>
        requires unspent { self.old.spent ≡ false }
        requires waits { self.old.ended ≡ true }
        requires goes_on { self.old.state.flow.ended ≡ false }
        requires within { IsWithin command }
        ensures { IsWritten F.Files K.Sink (λ held place. does held place (work run self.old.state command))
            result self.old self.new files.old files.new out.old out.new }
    {
        laws::runs_keep_lines_open(&self.lab);
        match command {
            Command::RunFor { length } => self.run_for(rt, out, length, gate, watcher),
            Command::Start => self.start(rt, out, gate, watcher),
            command => self.carry_out_at_once(files, out, command),
        }
    }

    /// Carries out a command that is no run, and writes what it prints.
    fn carry_out_at_once<F: Files, K: Sink>(
        &mut self,
        files: &mut F,
        out: &mut K,
        command: Command,
    ) -> Result<(), Halt>
        requires unspent { self.old.spent ≡ false }
        requires waits { self.old.ended ≡ true }
        requires goes_on { self.old.state.flow.ended ≡ false }
        requires within { IsWithin command }
        requires no_run { (length : Micros) → command ≢ Command.RunFor length }
        requires no_start { command ≢ Command.Start }
        ensures { IsWritten F.Files K.Sink (λ held place. does held place (work run self.old.state command))
            result self.old self.new files.old files.new out.old out.new }
    {
        laws::runs_keep_lines_open(&self.lab);
        match self.carry_out(files, command) {
            Ok(text) => match write_whole(out, &text) {
                Ok(()) => Ok(()),
                Err(fault) => Err(Halt::Cut(fault)),
            },
            Err(stop) => Err(Halt::Stop(stop)),
        }
    }
}
