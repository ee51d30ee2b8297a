//! The states of timers and interrupt controllers.
use crate::byte_reader::ByteReader;
use crate::fault::SnapFault;
use crate::spelled::Spelled;
use clint::ClintState;
use lab_num::NoMemory;
use plic::PlicState;
use std::alloc::Global;

impl Spelled for ClintState {
    ghost use Rattle.lab_encoding.specs.InterruptStates.{clint_form, clint_lawful};

    ghost form = { clint_form };

    ghost lawful = { clint_lawful };

    #[tactic(auto, unfolding(crate::specs::InterruptStates::clint_form))]
    fn encode(&self, out: &mut Vec<u8>) -> Result<(), NoMemory> {
        self.msip.encode(out)?;
        self.mtimecmp.encode(out)?;
        self.offset.encode(out)?;
        Ok(())
    }

    #[tactic(auto, unfolding(crate::specs::InterruptStates::clint_form))]
    fn decode(alloc: Global, reader: &mut ByteReader<'_>) -> Result<ClintState, SnapFault> {
        Ok(ClintState {
            msip: Spelled::decode(alloc, reader)?,
            mtimecmp: Spelled::decode(alloc, reader)?,
            offset: Spelled::decode(alloc, reader)?,
        })
    }
}

impl Spelled for PlicState {
    ghost use Rattle.lab_encoding.specs.InterruptStates.{plic_form, plic_lawful};

    ghost form = { plic_form };

    ghost lawful = { plic_lawful };

    #[tactic(auto, unfolding(crate::specs::InterruptStates::plic_form))]
    fn encode(&self, out: &mut Vec<u8>) -> Result<(), NoMemory> {
        self.priorities.encode(out)?;
        self.pending.encode(out)?;
        self.shut.encode(out)?;
        self.enables.encode(out)?;
        self.thresholds.encode(out)?;
        Ok(())
    }

    #[tactic(auto, unfolding(crate::specs::InterruptStates::plic_form))]
    fn decode(alloc: Global, reader: &mut ByteReader<'_>) -> Result<PlicState, SnapFault> {
        Ok(PlicState {
            priorities: Spelled::decode(alloc, reader)?,
            pending: Spelled::decode(alloc, reader)?,
            shut: Spelled::decode(alloc, reader)?,
            enables: Spelled::decode(alloc, reader)?,
            thresholds: Spelled::decode(alloc, reader)?,
        })
    }
}
