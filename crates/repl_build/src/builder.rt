//! From entries to the plan.
ghost use Rattle.std.specs.Prelude.{IfOk, IsTrue};
ghost use Rattle.sys_bus.specs.Plan.{IsValid};
ghost use Rattle.repl_build.specs.Names.{are_named};
ghost use Rattle.repl_build.specs.Plan.{Builds};

use crate::fault::refuse;
use crate::merge::merged;
use crate::names::{repeated, untyped};
use crate::plan::plan_of;
use crate::rules::tested;
use repl_read::{Entry, PlatFault};
use std::alloc::Global;
use sys_bus::BoardPlan;

/// The plan or the first fault.
#[tactic(auto, unfolding(crate::specs::Plan::built))]
fn plan_or_fault(alloc: Global, entries: &[Entry]) -> Result<BoardPlan, PlatFault>
    ensures { Builds entries.now result }
{
    refuse(repeated(alloc, entries)?)?;
    refuse(untyped(alloc, entries)?)?;
    let all = merged(alloc, entries)?;
    tested(&all)?;
    plan_of(alloc, &all)
}

/// The plan of the board that the entries of its platform files describe, which are a part of
/// Renode's platform description format. The entries of a `using` line are to stand in its place
/// before; a `using` entry that is left is passed over.
///
/// `At` is answered for the first fault, at the file and the line of the entry or the item that shows
/// it. The causes are sought in this order, each in all entries and their items in order: `Twice` (a
/// name typed before, or an attribute twice in one entry), `Reference` (further items of a name that
/// is not typed before), `TypeName`, `Attribute` (one that the type does not have), `Missing` (a
/// required attribute or registration), `Value` (of another sort or out of range, an address or a
/// size too, or a `hartId` other than the processor's place among the processors; at a processor's
/// entry, before its items, a speed other than the first processor's, or by which all do more than
/// 1000 instructions in a microsecond), `Core` (a processor that is not built, or of other letters
/// than the first), `Count` (an entry too many, or a memory by which all have more than 64 MiB; in
/// file 0 and line 0 where there is no processor or no memory), `Overlap` (also an entry that ends
/// past 2^32), `Reference` (a time provider that is no CLINT, or a wire to neither a processor nor a
/// PLIC) and `Line` (lines and pins of a wire that do not fit).
/// From `TypeName` on, the further items of an entry stand in the entry that gives the name its type.
/// `Memory` is answered only where memory runs out.
///
/// The plan is valid where each name that is given a type has its form. Entries that `read_platform`
/// gives are so (`entries_of_a_text_are_named`).
pub fn build(alloc: Global, entries: Vec<Entry>) -> Result<BoardPlan, PlatFault>
    ensures builds { Builds entries.items result }
    ensures valid { IsTrue (are_named entries.items) → IfOk result IsValid }
{
    plan_or_fault(alloc, &entries)
}
