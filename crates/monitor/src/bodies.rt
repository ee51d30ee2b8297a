//! The open bodies of a script, and the commands that enter one.
ghost use Rattle.std.specs.Prelude.{◌≡◌, ◌≤◌, length, true, false};
ghost use Rattle.std.specs.String.{string_bytes};
ghost use Rattle.resc_vars.specs.Bodies.{enter, source_of};
ghost use Rattle.monitor.specs.Bodies as bodies;
ghost use Rattle.monitor.specs.Inner.Ruling.{IsDone, IsRuled, IsTextStop};

use crate::fault::Cause;
use crate::monitor::Monitor;
use crate::stop::{Stop, file_stop};
use dev_core::Device;
use lab_io::{Files, TextFault, read_text};
use lab_num::{DEPTH_LIMIT, Micros};
use resc_vars::{Flow, ScriptCause};
use std::alloc::Global;
use std::marker::Model;

/// A script without its laboratory, between two of its commands: its open bodies, its variables and its
/// macros, and how it is run.
#[derive(Drop)]
pub struct Bodies {
    pub(crate) alloc: Global,
    pub(crate) flow: Flow,
    pub(crate) workers: u8,
    pub(crate) until: Micros,
    pub(crate) dry: bool,
}

impl Model for Bodies {
    ghost use Rattle.std.specs.Prelude.{◌≤◌};
    ghost use Rattle.monitor.specs.State.{Parted};

    ghost Value = { Parted };

    ghost view = { λ b. record {
      script = record { flow = b.flow; until = b.until.0; dry = b.dry };
      workers = b.workers;
    } };

    ghost invariant = { λ b. (1 ≤ b.workers) × (b.workers ≤ 8) };
}

/// Why a script stops where the text of a file of this name is not read.
fn text_stop(alloc: Global, name: &str, fault: TextFault) -> Stop
    ensures { IsTextStop name.now fault result }
{
    match fault {
        TextFault::Unread => Stop::Unread,
        TextFault::TooLarge => Stop::Line(ScriptCause::Size),
        TextFault::NotText { line } => {
            file_stop(alloc, name, line, Cause::Script(ScriptCause::Utf8))
        }
        TextFault::Memory => Stop::Memory,
    }
}

impl<D: Device> Monitor<D> {
    /// Enters the body of a macro.
    pub(crate) fn run_macro(&mut self, name: &str) -> Result<Vec<u8>, Stop>
        requires unspent { self.old.spent ≡ false }
        requires waits { self.old.ended ≡ true }
        requires goes_on { self.old.state.flow.ended ≡ false }
        ensures { IsRuled (bodies.run_macro self.old.state name.now) result self.old self.new }
    {
        self.flow.run_macro(name)?;
        Ok(Vec::new(self.alloc))
    }

    /// Enters a file.
    pub(crate) fn include<F: Files>(&mut self, files: &mut F, path: &str) -> Result<Vec<u8>, Stop>
        requires unspent { self.old.spent ≡ false }
        requires waits { self.old.ended ≡ true }
        requires goes_on { self.old.state.flow.ended ≡ false }
        ensures { IsDone F.Files
            (λ held place. bodies.include held self.old.state place path.now)
            result self.old self.new files.old files.new }
    {
        if self.flow.depth() >= DEPTH_LIMIT {
            return Err(Stop::Line(ScriptCause::Depth));
        }
        match read_text(self.alloc, files, path) {
            Ok(text) => self.enter(path, text),
            Err(fault) => Err(text_stop(self.alloc, path, fault)),
        }
    }

    /// Enters the text of a file.
    fn enter(&mut self, path: &str, text: String) -> Result<Vec<u8>, Stop>
        requires unspent { self.old.spent ≡ false }
        requires waits { self.old.ended ≡ true }
        requires goes_on { self.old.state.flow.ended ≡ false }
        requires few { length (string_bytes text) ≤ 16777216 }
        ensures { IsRuled (bodies.entered self.old.state
            (enter self.old.state.flow (source_of path.now (string_bytes text))))
            result self.old self.new }
    {
        self.flow.include(path, text)?;
        Ok(Vec::new(self.alloc))
    }
}
