//! The open lines of UARTs.
use crate::byte_reader::ByteReader;
use crate::fault::SnapFault;
use crate::spelled::Spelled;
use lab_num::NoMemory;
use log_text::OpenLine;
use std::alloc::Global;

impl Spelled for OpenLine {
    ghost use Rattle.lab_encoding.specs.OpenLines.{open_line_form, open_line_lawful};

    ghost form = { open_line_form };

    ghost lawful = { open_line_lawful };

    #[tactic(auto, unfolding(crate::specs::OpenLines::open_line_form))]
    fn encode(&self, out: &mut Vec<u8>) -> Result<(), NoMemory> {
        self.member.encode(out)?;
        self.at.encode(out)?;
        self.bytes.encode(out)?;
        Ok(())
    }

    #[tactic(auto, unfolding(crate::specs::OpenLines::open_line_form))]
    fn decode(alloc: Global, reader: &mut ByteReader<'_>) -> Result<OpenLine, SnapFault> {
        Ok(OpenLine {
            member: Spelled::decode(alloc, reader)?,
            at: Spelled::decode(alloc, reader)?,
            bytes: Spelled::decode(alloc, reader)?,
        })
    }
}
