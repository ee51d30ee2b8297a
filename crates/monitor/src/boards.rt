//! Commands that make, select, equip and reset boards.
ghost use Rattle.std.specs.Prelude.{◌≡◌, ◌≤◌, ◌<◌, [], length, slice_index_or, false, Ok, Err, None, IfOk, IfSome};
ghost use Rattle.std.specs.Prelude.{IsTrue, true};
ghost use Rattle.std.specs.Option.{ForSome, option_map};
ghost use Rattle.std.specs.List.{list_all};
ghost use Rattle.lab_io.specs.Frame.{OnlyReads};
ghost use Rattle.lab_num.specs.Depth.{depth_limit};
ghost use Rattle.lab_num.specs.Name.{is_name};
ghost use Rattle.lab_state.specs.One.{view_of};
ghost use Rattle.repl_files.specs.Loading.{load};
ghost use Rattle.repl_read.specs.Entries.{is_entry};
ghost use Rattle.sys_bus.specs.Plan.{IsValid};
ghost use Rattle.monitor.specs.Boards as boards;
ghost use Rattle.monitor.specs.Inner.Reading.{IsPlanRead};
ghost use Rattle.monitor.specs.Inner.Ruling as ruling;
ghost use Rattle.monitor.specs.Inner.Ruling.{IsDone, IsFileStop, IsPlan, IsRuled};

use crate::fault::{Cause, ScriptFault};
use crate::monitor::Monitor;
use crate::stop::{Stop, file_stop};
use dev_core::Device;
use lab_io::Files;
use lab_num::{BoardNo, Text, number_of};
use lab_state::{AddFault, FitFault};
use repl_build::{build, laws};
use repl_files::{FileCause, FileFault, LoadFault, Loaded, load_platform};
use repl_read::{PlatCause, PlatFault};
use resc_vars::ScriptCause;
use std::alloc::Global;
use sys_bus::BoardPlan;

impl From<AddFault> for Stop {
    ghost use Rattle.std.specs.Prelude.{◌≡◌};
    ghost use Rattle.monitor.specs.Inner.Ruling.{add_stop};

    ghost from_gives = { λ fault stop. stop ≡ add_stop fault };

    fn from(fault: AddFault) -> Stop {
        match fault {
            AddFault::Taken => Stop::Line(ScriptCause::Taken),
            AddFault::Boards => Stop::Line(ScriptCause::Boards),
            AddFault::Memory => Stop::Memory,
        }
    }
}

impl<D: Device> Monitor<D> {
    /// Makes a board and selects it. Without a name it is named by its number.
    pub(crate) fn create(&mut self, name: Option<Text>) -> Result<Vec<u8>, Stop>
        requires unspent { self.old.spent ≡ false }
        requires waits { self.old.ended ≡ true }
        requires is_name { IfSome name (λ text. IsTrue (is_name text)) }
        ensures { IsRuled (boards.create self.old.state name) result self.old self.new }
    {
        match name {
            Some(name) => self.create_as(name.as_str()),
            None => {
                let number = self.lab.boards();
                let name = format!(in self.alloc; "machine-{number}")?;
                self.create_as(name.as_str())
            }
        }
    }

    /// Makes a board of this name and selects it.
    fn create_as(&mut self, name: &str) -> Result<Vec<u8>, Stop>
        requires unspent { self.old.spent ≡ false }
        requires waits { self.old.ended ≡ true }
        requires is_name { IsTrue (is_name name.now) }
        ensures { IsRuled (boards.create_as self.old.state name.now) result self.old self.new }
    {
        let b = self.lab.add_board(name)?;
        self.selected = Some(b);
        Ok(Vec::new(self.alloc))
    }

    /// The board of this name, and else the board of this number.
    fn board_of(&self, name: &str) -> Option<BoardNo>
        requires { self.now.spent ≡ false }
        ensures { option_map (λ b. b.0) result ≡ boards.board_of self.now.state.lab name.now }
    {
        if let Some(b) = self.lab.find_board(name) {
            return Some(b);
        }
        let number = number_of(name)?;
        if number < u32::from(self.lab.boards()) {
            Some(BoardNo(number as u8))
        } else {
            None
        }
    }

    /// Selects a board.
    pub(crate) fn select(&mut self, name: &str) -> Result<Vec<u8>, Stop>
        requires unspent { self.old.spent ≡ false }
        requires waits { self.old.ended ≡ true }
        ensures { IsRuled (boards.select self.old.state name.now) result self.old self.new }
    {
        let Some(b) = self.board_of(name) else {
            return Err(Stop::Line(ScriptCause::Board));
        };
        self.selected = Some(b);
        Ok(Vec::new(self.alloc))
    }

    /// Resets the selected board.
    pub(crate) fn reset_board(&mut self) -> Result<Vec<u8>, Stop>
        requires unspent { self.old.spent ≡ false }
        requires waits { self.old.ended ≡ true }
        ensures { IsRuled (boards.reset_board self.old.state) result self.old self.new }
    {
        let b = self.equipped()?;
        self.lab.reset(b);
        Ok(Vec::new(self.alloc))
    }

    /// Makes the selected board by a platform file and the files that it names.
    pub(crate) fn load_platform<F: Files>(
        &mut self,
        files: &mut F,
        path: &str,
    ) -> Result<Vec<u8>, Stop>
        requires unspent { self.old.spent ≡ false }
        requires waits { self.old.ended ≡ true }
        ensures { IsDone F.Files
            (λ held place. boards.load_platform held self.old.state place path.now)
            result self.old self.new files.old files.new }
    {
        let b = self.bare()?;
        let plan = read_plan(self.alloc, files, self.flow.depth(), path)?;
        self.fit(b, plan)
    }

    /// Makes a board by its plan.
    fn fit(&mut self, b: BoardNo, plan: BoardPlan) -> Result<Vec<u8>, Stop>
        requires unspent { self.old.spent ≡ false }
        requires waits { self.old.ended ≡ true }
        requires exists { b.0 < length self.old.state.lab.boards }
        requires bare { view_of self.old.state.lab b.0 ≡ None }
        requires plan { IsValid plan }
        ensures { IsRuled (Ok (boards.made self.old.state b.0 plan)) result self.old self.new }
    {
        match self.lab.fit(b, plan) {
            Ok(()) => Ok(Vec::new(self.alloc)),
            Err(FitFault::Has) => Err(Stop::Line(ScriptCause::Platform)),
            Err(FitFault::Memory) => Err(Stop::Memory),
        }
    }
}

/// The cause of a fault of a platform's files.
fn cause_of(cause: FileCause) -> Cause
    ensures { result ≡ boards.cause_of cause }
{
    match cause {
        FileCause::Depth => Cause::Script(ScriptCause::Depth),
        FileCause::Utf8 => Cause::Script(ScriptCause::Utf8),
        FileCause::Size => Cause::Script(ScriptCause::Size),
        FileCause::Platform(cause) => Cause::Plat(cause),
    }
}

/// Why a script stops where a platform's files are not loaded.
fn load_stop(fault: LoadFault) -> Stop
    ensures { result ≡ ruling.load_stop fault }
{
    match fault {
        LoadFault::At(FileFault { file, line, cause }) => Stop::File(ScriptFault {
            file,
            line,
            cause: cause_of(cause),
        }),
        LoadFault::TooLarge => Stop::Line(ScriptCause::Size),
        LoadFault::Unread => Stop::Unread,
        LoadFault::Memory => Stop::Memory,
    }
}

/// The plan that a platform file and the files that it names describe, while so many bodies are open.
fn read_plan<F: Files>(
    alloc: Global,
    files: &mut F,
    bodies: u8,
    path: &str,
) -> Result<BoardPlan, Stop>
    requires { bodies ≤ depth_limit }
    ensures read { ForSome (F.held files.old) (λ held.
        IsPlanRead (load held bodies path.now) result (F.asked files.old) (F.asked files.new)) }
    ensures valid { IfOk result IsValid }
    ensures files { OnlyReads F.Files (result ≡ Err Stop.Unread) files.old files.new }
{
    match load_platform(alloc, files, bodies, path) {
        Ok(loaded) => plan_of(alloc, loaded),
        Err(fault) => Err(load_stop(fault)),
    }
}

/// The plan that loaded entries describe.
fn plan_of(alloc: Global, loaded: Loaded) -> Result<BoardPlan, Stop>
    requires { IsTrue (list_all is_entry loaded.entries.items) }
    ensures plan { IsPlan loaded result }
    ensures valid { IfOk result IsValid }
{
    laws::entries_of_a_text_are_named();
    let Loaded { names, entries } = loaded;
    match build(alloc, entries) {
        Ok(plan) => Ok(plan),
        Err(PlatFault::At { file, line, cause }) => Err(plat_stop(
            alloc, &names, file, line, cause,
        )),
        Err(PlatFault::Memory) => Err(Stop::Memory),
    }
}

/// A fault of an entry, in the file of this number.
fn plat_stop(alloc: Global, names: &[Text], file: u32, line: u32, cause: PlatCause) -> Stop
    ensures { IsFileStop
        (record { file = slice_index_or names.now file []; line = line; cause = Cause.Plat cause })
        result }
{
    let name = match names.get(file as usize) {
        Some(name) => name.as_str(),
        None => "",
    };
    file_stop(alloc, name, line, Cause::Plat(cause))
}
