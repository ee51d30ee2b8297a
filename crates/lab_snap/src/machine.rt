//! Boards that have a plan.
ghost use Rattle.std.specs.Prelude.{◌≡◌, All, IfOk, IsTrue};
ghost use Rattle.page_ram.specs.Access.{IsRamSize};
ghost use Rattle.sys_bus.specs.Plan.{IsValid};
ghost use Rattle.lab_encoding.specs.Reads.{Reads};
ghost use Rattle.lab_snap.specs.Inner.ValidPlan.{is_valid_plan};
ghost use Rattle.lab_snap.specs.Machine.{IsMachine};
ghost use Rattle.lab_snap.specs.MachineForm.{valid_plan_form};

use crate::memories::{decode_memories, encode_memories};
use board::BoardState;
use lab_encoding::{ByteReader, SnapFault, Spelled};
use lab_num::{NoMemory, Rows};
use page_ram::PageRam;
use std::alloc::Global;
use std::marker::Model;
use sys_bus::BoardPlan;

/// A board that has a plan, as a snapshot holds it: a board can be made by the plan, and there is a
/// memory for each of its sizes. Its state need not fit the plan.
#[derive(Drop)]
pub struct SavedMachine {
    plan: BoardPlan,
    state: BoardState,
    /// In the order of the plan.
    memories: Rows<PageRam>,
}

impl Model for SavedMachine {
    ghost use Rattle.lab_snap.specs.Machine.{IsMachine, Machine};

    ghost Value = { Machine };

    ghost view = { λ m. record { plan = m.plan; state = m.state; memories = m.memories } };

    ghost invariant = { λ m. IsMachine (record { plan = m.plan; state = m.state; memories = m.memories }) };
}

impl SavedMachine {
    pub fn plan(&self) -> &BoardPlan
        ensures plan { result.now ≡ self.now.plan }
        ensures valid { IsValid result.now }
    {
        &self.plan
    }

    pub fn state(&self) -> &BoardState
        ensures { result.now ≡ self.now.state }
    {
        &self.state
    }

    /// At every moment a board can be made by the plan, and the memories have its sizes. This function
    /// does nothing when it runs: a proof that needs the fact calls it.
    pub(crate) fn validity_law(&self)
        ensures { IsMachine self.now }
    {
        let _plan = &self.plan;
    }

    /// The plan, the state and the memories.
    pub fn into_parts(self) -> (BoardPlan, BoardState, Rows<PageRam>)
        ensures parts { result ≡ (self.plan, self.state, self.memories) }
        ensures sound { IsMachine self }
    {
        (self.plan, self.state, self.memories)
    }
}

/// Each memory of a valid plan has whole pages: a proof that needs this calls it.
fn have_whole_pages(plan: &BoardPlan)
    requires { IsValid plan.now }
    ensures { All IsRamSize plan.now.memories }
{}

/// Whether a board can be made by the plan.
fn is_valid(plan: &BoardPlan) -> bool
    ensures test { result ≡ is_valid_plan plan.now }
    ensures valid { IsTrue result → IsValid plan.now }
{
    plan.is_valid()
}

/// Reads a plan that a board can be made by.
#[tactic(auto, unfolding(crate::specs::MachineForm::valid_plan_form))]
fn decode_plan(alloc: Global, reader: &mut ByteReader<'_>) -> Result<BoardPlan, SnapFault>
    ensures reads { Reads (valid_plan_form.parse reader.old) reader.new result }
    ensures valid { IfOk result IsValid }
{
    let plan = BoardPlan::decode(alloc, reader)?;
    if !is_valid(&plan) {
        return Err(SnapFault::Bad);
    }
    Ok(plan)
}

impl Spelled for SavedMachine {
    ghost use Rattle.lab_snap.specs.MachineForm.{machine_form, machine_lawful};

    ghost form = { machine_form };

    ghost lawful = { machine_lawful };

    #[tactic(auto, unfolding(crate::specs::MachineForm::machine_form, crate::specs::MachineForm::valid_plan_form))]
    fn encode(&self, out: &mut Vec<u8>) -> Result<(), NoMemory> {
        have_whole_pages(&self.plan);
        self.plan.encode(out)?;
        self.state.encode(out)?;
        encode_memories(self.plan.memories.items(), self.memories.items(), out)
    }

    #[tactic(auto, unfolding(crate::specs::MachineForm::machine_form))]
    fn decode(alloc: Global, reader: &mut ByteReader<'_>) -> Result<SavedMachine, SnapFault> {
        let plan = decode_plan(alloc, reader)?;
        have_whole_pages(&plan);
        let state = BoardState::decode(alloc, reader)?;
        let memories = decode_memories(alloc, plan.memories.items(), reader)?;
        Ok(SavedMachine {
            plan,
            state,
            memories,
        })
    }
}
