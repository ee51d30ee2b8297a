//! The selected board, and what stands on it under a name.
ghost use Rattle.std.specs.Prelude.{◌≡◌, ◌<◌, ◌≤◌, length, find, false, None, Ok, Err, IfOk, IfErr, IfSome, IsSome};
ghost use Rattle.std.specs.Option.{ForSome, option_map};
ghost use Rattle.std.specs.Str.{bytes_eq};
ghost use Rattle.lab_state.specs.One.{view_of};
ghost use Rattle.monitor.specs.Selected as selected;
ghost use Rattle.monitor.specs.Inner.Ruling.{IsBoard, IsSpeaker};

use crate::monitor::Monitor;
use dev_core::Device;
use lab_num::{BoardNo, Member};
use resc_vars::ScriptCause;
use sys_bus::{BoardPlan, Named, NamedWhat, RegionKind};

/// What has this name in a plan.
fn find_entry<'a>(plan: &'a BoardPlan, name: &str) -> Option<&'a Named>
    ensures { option_map (λ named. named.now) result
        ≡ find (λ named. bytes_eq named.name name.now) plan.now.names }
{
    plan.names
        .items()
        .iter()
        .find(|named| named.name.as_str() == name)
}

/// The number of the processor of this name in a plan.
fn find_hart(plan: &BoardPlan, name: &str) -> Option<usize>
    ensures place { result ≡ selected.hart_in plan.now name.now }
    ensures below { IfSome result (λ hart. hart < length plan.now.cpus) }
{
    plan.cpus
        .items()
        .iter()
        .position(|cpu| cpu.as_str() == name)
}

/// The name of an entry in a word, of which one prefix `sysbus.` is taken off.
fn entry_name(word: &str) -> &str
    ensures { result.now ≡ selected.entry_name word.now }
{
    match word.strip_prefix("sysbus.") {
        Some(name) => name,
        None => word,
    }
}

impl<D: Device> Monitor<D> {
    /// The selected board.
    fn selected(&self) -> Result<BoardNo, ScriptCause>
        requires { self.now.spent ≡ false }
        ensures ok { IfOk result (λ b. selected.selected self.now.state ≡ Ok b.0) }
        ensures exists { IfOk result (λ b. b.0 < length self.now.state.lab.boards) }
        ensures err { IfErr result (λ cause. selected.selected self.now.state ≡ Err cause) }
    {
        match self.selected {
            Some(b) if b.0 < self.lab.boards() => Ok(b),
            _ => Err(ScriptCause::NoBoard),
        }
    }

    /// The selected board, which has no platform yet.
    pub(crate) fn bare(&self) -> Result<BoardNo, ScriptCause>
        requires { self.now.spent ≡ false }
        ensures ok { IfOk result (λ b. selected.bare self.now.state ≡ Ok b.0) }
        ensures exists { IfOk result (λ b. b.0 < length self.now.state.lab.boards) }
        ensures none { IfOk result (λ b. view_of self.now.state.lab b.0 ≡ None) }
        ensures err { IfErr result (λ cause. selected.bare self.now.state ≡ Err cause) }
    {
        let b = self.selected()?;
        if self.lab.has_plan(b) {
            return Err(ScriptCause::Platform);
        }
        Ok(b)
    }

    /// The selected board, which has its platform.
    pub(crate) fn equipped(&self) -> Result<BoardNo, ScriptCause>
        requires { self.now.spent ≡ false }
        ensures ok { IfOk result (λ b.
            IsBoard self.now.state (selected.equipped self.now.state) b.0) }
        ensures err { IfErr result (λ cause. selected.equipped self.now.state ≡ Err cause) }
    {
        let b = self.selected()?;
        if !self.lab.has_plan(b) {
            return Err(ScriptCause::Platform);
        }
        Ok(b)
    }

    /// What a word names on a board that has its platform. One prefix `sysbus.` is taken off.
    pub(crate) fn entry(&self, b: BoardNo, word: &str) -> Result<NamedWhat, ScriptCause>
        requires unspent { self.now.spent ≡ false }
        requires has_plan { IsSome (view_of self.now.state.lab b.0) }
        ensures { ForSome (view_of self.now.state.lab b.0) (λ v.
            result ≡ selected.entry (record { number = b.0; view = v }) word.now) }
    {
        match find_entry(self.lab.board(b).plan(), entry_name(word)) {
            Some(named) => Ok(named.what),
            None => Err(ScriptCause::Name),
        }
    }

    /// How many processors a board has, 1 to 4.
    pub(crate) fn harts(&self, b: BoardNo) -> u8
        requires unspent { self.now.spent ≡ false }
        requires has_plan { IsSome (view_of self.now.state.lab b.0) }
        ensures count { ForSome (view_of self.now.state.lab b.0) (λ v. result ≡ length v.cores) }
        ensures least { 1 ≤ result }
        ensures most { result ≤ 4 }
    {
        self.lab.board(b).plan().cpus.items().len() as u8
    }

    /// The number of the processor that a word names on a board that has its platform. One prefix
    /// `sysbus.` is taken off.
    pub(crate) fn processor(&self, b: BoardNo, cpu: &str) -> Result<u8, ScriptCause>
        requires unspent { self.now.spent ≡ false }
        requires has_plan { IsSome (view_of self.now.state.lab b.0) }
        ensures meant { ForSome (view_of self.now.state.lab b.0) (λ v.
            result ≡ selected.processor (record { number = b.0; view = v }) cpu.now) }
        ensures exists { IfOk result (λ hart.
            ForSome (view_of self.now.state.lab b.0) (λ v. hart < length v.cores)) }
    {
        let _what = self.entry(b, cpu)?;
        match find_hart(self.lab.board(b).plan(), entry_name(cpu)) {
            Some(hart) => Ok(hart as u8),
            None => Err(ScriptCause::Kind),
        }
    }

    /// A device that may be shown.
    pub(crate) fn speaker(&self, b: BoardNo, what: NamedWhat) -> Result<Member, ScriptCause>
        requires unspent { self.now.spent ≡ false }
        requires has_plan { IsSome (view_of self.now.state.lab b.0) }
        ensures meant { result ≡ selected.speaker self.now.state b.0 what }
        ensures device { IfOk result (IsSpeaker self.now.state.lab b.0) }
    {
        let NamedWhat::Part(RegionKind::Dev(dev)) = what else {
            return Err(ScriptCause::Kind);
        };
        match self.lab.board(b).plan().kinds.items().get(dev as usize) {
            Some(kind) if kind.may_be_shown() => Ok(Member { board: b, dev }),
            _ => Err(ScriptCause::Kind),
        }
    }
}
