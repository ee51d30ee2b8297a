//! What of a board changes, its memories aside.
use crate::byte_reader::ByteReader;
use crate::fault::SnapFault;
use crate::spelled::Spelled;
use board::BoardState;
use lab_num::NoMemory;
use std::alloc::Global;

impl Spelled for BoardState {
    ghost use Rattle.lab_encoding.specs.BoardState.{board_state_form, board_state_lawful};

    ghost form = { board_state_form };

    ghost lawful = { board_state_lawful };

    #[tactic(auto, unfolding(crate::specs::BoardState::board_state_form))]
    fn encode(&self, out: &mut Vec<u8>) -> Result<(), NoMemory> {
        self.speed.encode(out)?;
        self.harts.encode(out)?;
        self.next.encode(out)?;
        self.reserved.encode(out)?;
        self.clint.encode(out)?;
        self.plic.encode(out)?;
        self.devices.encode(out)?;
        self.shown.encode(out)?;
        self.posted.encode(out)?;
        self.entries.encode(out)?;
        Ok(())
    }

    #[tactic(auto, unfolding(crate::specs::BoardState::board_state_form))]
    fn decode(alloc: Global, reader: &mut ByteReader<'_>) -> Result<BoardState, SnapFault> {
        Ok(BoardState {
            speed: Spelled::decode(alloc, reader)?,
            harts: Spelled::decode(alloc, reader)?,
            next: Spelled::decode(alloc, reader)?,
            reserved: Spelled::decode(alloc, reader)?,
            clint: Spelled::decode(alloc, reader)?,
            plic: Spelled::decode(alloc, reader)?,
            devices: Spelled::decode(alloc, reader)?,
            shown: Spelled::decode(alloc, reader)?,
            posted: Spelled::decode(alloc, reader)?,
            entries: Spelled::decode(alloc, reader)?,
        })
    }
}
