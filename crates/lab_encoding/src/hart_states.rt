//! The states of processors.
use crate::byte_reader::ByteReader;
use crate::fault::SnapFault;
use crate::spelled::Spelled;
use lab_num::NoMemory;
use rv_hart::{HartState, Letters};
use std::alloc::Global;

impl Spelled for Letters {
    ghost use Rattle.lab_encoding.specs.HartStates.{letters_form, letters_lawful};

    ghost form = { letters_form };

    ghost lawful = { letters_lawful };

    #[tactic(auto, unfolding(crate::specs::HartStates::letters_form))]
    fn encode(&self, out: &mut Vec<u8>) -> Result<(), NoMemory> {
        self.a.encode(out)?;
        self.c.encode(out)?;
        Ok(())
    }

    #[tactic(auto, unfolding(crate::specs::HartStates::letters_form))]
    fn decode(alloc: Global, reader: &mut ByteReader<'_>) -> Result<Letters, SnapFault> {
        Ok(Letters {
            a: Spelled::decode(alloc, reader)?,
            c: Spelled::decode(alloc, reader)?,
        })
    }
}

impl Spelled for HartState {
    ghost use Rattle.lab_encoding.specs.HartStates.{hart_form, hart_lawful};

    ghost form = { hart_form };

    ghost lawful = { hart_lawful };

    #[tactic(auto, unfolding(crate::specs::HartStates::hart_form))]
    fn encode(&self, out: &mut Vec<u8>) -> Result<(), NoMemory> {
        self.registers.encode(out)?;
        self.pc.encode(out)?;
        self.on.encode(out)?;
        self.before.encode(out)?;
        self.mie.encode(out)?;
        self.mtvec.encode(out)?;
        self.mscratch.encode(out)?;
        self.mepc.encode(out)?;
        self.mcause.encode(out)?;
        self.mtval.encode(out)?;
        self.mcycle.encode(out)?;
        self.minstret.encode(out)?;
        self.waiting.encode(out)?;
        self.halted.encode(out)?;
        self.letters.encode(out)?;
        self.number.encode(out)?;
        Ok(())
    }

    #[tactic(auto, unfolding(crate::specs::HartStates::hart_form))]
    fn decode(alloc: Global, reader: &mut ByteReader<'_>) -> Result<HartState, SnapFault> {
        Ok(HartState {
            registers: Spelled::decode(alloc, reader)?,
            pc: Spelled::decode(alloc, reader)?,
            on: Spelled::decode(alloc, reader)?,
            before: Spelled::decode(alloc, reader)?,
            mie: Spelled::decode(alloc, reader)?,
            mtvec: Spelled::decode(alloc, reader)?,
            mscratch: Spelled::decode(alloc, reader)?,
            mepc: Spelled::decode(alloc, reader)?,
            mcause: Spelled::decode(alloc, reader)?,
            mtval: Spelled::decode(alloc, reader)?,
            mcycle: Spelled::decode(alloc, reader)?,
            minstret: Spelled::decode(alloc, reader)?,
            waiting: Spelled::decode(alloc, reader)?,
            halted: Spelled::decode(alloc, reader)?,
            letters: Spelled::decode(alloc, reader)?,
            number: Spelled::decode(alloc, reader)?,
        })
    }
}
