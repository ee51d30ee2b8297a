//! The plan of a board. What is read has the form of a plan; whether a board can be made by it is a
//! test of its own, `BoardPlan::is_valid`.
use crate::byte_reader::ByteReader;
use crate::fault::SnapFault;
use crate::spelled::Spelled;
use lab_num::NoMemory;
use std::alloc::Global;
use sys_bus::BoardPlan;

impl Spelled for BoardPlan {
    ghost use Rattle.lab_encoding.specs.Plan.{plan_form, plan_lawful};

    ghost form = { plan_form };

    ghost lawful = { plan_lawful };

    #[tactic(auto, unfolding(crate::specs::Plan::plan_form))]
    fn encode(&self, out: &mut Vec<u8>) -> Result<(), NoMemory> {
        self.names.encode(out)?;
        self.regions.encode(out)?;
        self.memories.encode(out)?;
        self.kinds.encode(out)?;
        self.frequency.encode(out)?;
        self.plic.encode(out)?;
        self.wires.encode(out)?;
        self.speed.encode(out)?;
        self.cpus.encode(out)?;
        self.letters.encode(out)?;
        Ok(())
    }

    #[tactic(auto, unfolding(crate::specs::Plan::plan_form))]
    fn decode(alloc: Global, reader: &mut ByteReader<'_>) -> Result<BoardPlan, SnapFault> {
        Ok(BoardPlan {
            names: Spelled::decode(alloc, reader)?,
            regions: Spelled::decode(alloc, reader)?,
            memories: Spelled::decode(alloc, reader)?,
            kinds: Spelled::decode(alloc, reader)?,
            frequency: Spelled::decode(alloc, reader)?,
            plic: Spelled::decode(alloc, reader)?,
            wires: Spelled::decode(alloc, reader)?,
            speed: Spelled::decode(alloc, reader)?,
            cpus: Spelled::decode(alloc, reader)?,
            letters: Spelled::decode(alloc, reader)?,
        })
    }
}
