//! Commands to a processor of the selected board: each prints a value, or sets it.
ghost use Rattle.std.specs.Prelude.{◌≡◌, ◌≤◌, ◌<◌, ◌++◌, length, codes, true, false, IfErr, IfOk, IfSome, IsSome};
ghost use Rattle.std.specs.Prelude.{Some};
ghost use Rattle.std.specs.Fmt.{decimal};
ghost use Rattle.std.specs.Option.{ForSome};
ghost use Rattle.board.specs.View.{View};
ghost use Rattle.lab_state.specs.One.{view_of};
ghost use Rattle.monitor.specs.Processor as processor;
ghost use Rattle.monitor.specs.Inner.Ruling.{IsRuled};

use crate::memory::word_line;
use crate::monitor::Monitor;
use crate::stop::Stop;
use dev_core::Device;
use lab_num::{BoardNo, MOST_SPEED};
use resc_vars::ScriptCause;
use std::alloc::Global;

/// A truth value as it is printed.
fn truth_line(alloc: Global, truth: bool) -> Result<Vec<u8>, Stop>
    ensures ok { IfOk result (λ line. line.items ≡ processor.truth_line truth) }
    ensures err { IfErr result (λ stop. stop ≡ Stop.Memory) }
{
    let line = format!(in alloc; "{truth}\n")?;
    Ok(line.into_bytes())
}

/// A number as it is printed.
fn number_line(alloc: Global, number: u32) -> Result<Vec<u8>, Stop>
    ensures ok { IfOk result (λ line. line.items ≡ decimal number ++ codes "\n") }
    ensures err { IfErr result (λ stop. stop ≡ Stop.Memory) }
{
    let line = format!(in alloc; "{number}\n")?;
    Ok(line.into_bytes())
}

/// Whether a board of so many processors goes at most at 1,000 instructions in a microsecond where
/// each of them does so many.
fn may_go_at(harts: u8, value: Option<u32>) -> bool
    requires most { harts ≤ 4 }
    requires within { IfSome value (λ n. n ≤ 1000) }
    ensures { (v : View) → harts ≡ length v.cores → result ≡ processor.may_go_at v value }
{
    match value {
        None => true,
        Some(each) => each * u32::from(harts) <= MOST_SPEED,
    }
}

impl<D: Device> Monitor<D> {
    /// Prints or sets the address of a processor's next instruction.
    pub(crate) fn pc(&mut self, cpu: &str, value: Option<u32>) -> Result<Vec<u8>, Stop>
        requires unspent { self.old.spent ≡ false }
        requires waits { self.old.ended ≡ true }
        ensures { IsRuled (processor.pc self.old.state cpu.now value) result self.old self.new }
    {
        let b = self.equipped()?;
        let hart = self.processor(b, cpu)?;
        match value {
            None => word_line(self.alloc, self.lab.board(b).pc(hart)),
            Some(value) => self.set_pc(b, hart, value),
        }
    }

    fn set_pc(&mut self, b: BoardNo, hart: u8, value: u32) -> Result<Vec<u8>, Stop>
        requires unspent { self.old.spent ≡ false }
        requires waits { self.old.ended ≡ true }
        requires has_plan { IsSome (view_of self.old.state.lab b.0) }
        requires hart { ForSome (view_of self.old.state.lab b.0) (λ v. hart < length v.cores) }
        ensures { ForSome (view_of self.old.state.lab b.0) (λ v. IsRuled
            (processor.pc_on self.old.state (record { number = b.0; view = v }) hart (Some value))
            result self.old self.new) }
    {
        if !self.lab.board(b).aligns(value) {
            return Err(Stop::Line(ScriptCause::Address));
        }
        self.lab.set_pc(b, hart, value);
        Ok(Vec::new(self.alloc))
    }

    /// Prints or sets whether a processor is halted.
    pub(crate) fn halted(&mut self, cpu: &str, value: Option<bool>) -> Result<Vec<u8>, Stop>
        requires unspent { self.old.spent ≡ false }
        requires waits { self.old.ended ≡ true }
        ensures { IsRuled (processor.halted self.old.state cpu.now value) result self.old self.new }
    {
        let b = self.equipped()?;
        let hart = self.processor(b, cpu)?;
        match value {
            None => truth_line(self.alloc, self.lab.board(b).halted(hart)),
            Some(value) => {
                self.lab.set_halted(b, hart, value);
                Ok(Vec::new(self.alloc))
            }
        }
    }

    /// Prints or sets the instructions that each processor of the board makes in a microsecond.
    pub(crate) fn mips(&mut self, cpu: &str, value: Option<u32>) -> Result<Vec<u8>, Stop>
        requires unspent { self.old.spent ≡ false }
        requires waits { self.old.ended ≡ true }
        requires within { IfSome value (λ n. (1 ≤ n) × (n ≤ 1000)) }
        ensures { IsRuled (processor.mips self.old.state cpu.now value) result self.old self.new }
    {
        let b = self.equipped()?;
        let harts = self.harts(b);
        if !may_go_at(harts, value) {
            return Err(Stop::Line(ScriptCause::Arguments));
        }
        let _hart = self.processor(b, cpu)?;
        match value {
            None => number_line(self.alloc, self.lab.board(b).speed() / u32::from(harts)),
            Some(each) => {
                self.lab.set_speed(b, each * u32::from(harts));
                Ok(Vec::new(self.alloc))
            }
        }
    }
}
