//! What is on its way from device to device.
use crate::byte_reader::ByteReader;
use crate::fault::SnapFault;
use crate::spelled::Spelled;
use dev_core::{Finish, Payload, Post};
use lab_num::NoMemory;
use std::alloc::Global;

impl Spelled for Finish {
    ghost use Rattle.lab_encoding.specs.Posts.{finish_form, finish_lawful};

    ghost form = { finish_form };

    ghost lawful = { finish_lawful };

    #[tactic(auto, unfolding(crate::specs::Posts::finish_form))]
    fn encode(&self, out: &mut Vec<u8>) -> Result<(), NoMemory> {
        match self {
            Finish::Pass => out.push(0)?,
            Finish::Fail(code) => {
                out.push(1)?;
                code.encode(out)?;
            }
        }
        Ok(())
    }

    #[tactic(auto, unfolding(crate::specs::Posts::finish_form))]
    fn decode(alloc: Global, reader: &mut ByteReader<'_>) -> Result<Finish, SnapFault> {
        match reader.byte()? {
            0 => Ok(Finish::Pass),
            1 => Ok(Finish::Fail(Spelled::decode(alloc, reader)?)),
            _ => Err(SnapFault::Bad),
        }
    }
}

impl Spelled for Payload {
    ghost use Rattle.lab_encoding.specs.Posts.{payload_form, payload_lawful};

    ghost form = { payload_form };

    ghost lawful = { payload_lawful };

    #[tactic(auto, unfolding(crate::specs::Posts::payload_form))]
    fn encode(&self, out: &mut Vec<u8>) -> Result<(), NoMemory> {
        match self {
            Payload::Byte(byte) => {
                out.push(0)?;
                byte.encode(out)?;
            }
            Payload::Frame(frame) => {
                out.push(1)?;
                frame.encode(out)?;
            }
            Payload::Finish(finish) => {
                out.push(2)?;
                finish.encode(out)?;
            }
        }
        Ok(())
    }

    #[tactic(auto, unfolding(crate::specs::Posts::payload_form))]
    fn decode(alloc: Global, reader: &mut ByteReader<'_>) -> Result<Payload, SnapFault> {
        match reader.byte()? {
            0 => Ok(Payload::Byte(Spelled::decode(alloc, reader)?)),
            1 => Ok(Payload::Frame(Spelled::decode(alloc, reader)?)),
            2 => Ok(Payload::Finish(Spelled::decode(alloc, reader)?)),
            _ => Err(SnapFault::Bad),
        }
    }
}

impl Spelled for Post {
    ghost use Rattle.lab_encoding.specs.Posts.{post_form, post_lawful};

    ghost form = { post_form };

    ghost lawful = { post_lawful };

    #[tactic(auto, unfolding(crate::specs::Posts::post_form))]
    fn encode(&self, out: &mut Vec<u8>) -> Result<(), NoMemory> {
        self.key.encode(out)?;
        self.from.encode(out)?;
        self.payload.encode(out)?;
        Ok(())
    }

    #[tactic(auto, unfolding(crate::specs::Posts::post_form))]
    fn decode(alloc: Global, reader: &mut ByteReader<'_>) -> Result<Post, SnapFault> {
        Ok(Post {
            key: Spelled::decode(alloc, reader)?,
            from: Spelled::decode(alloc, reader)?,
            payload: Spelled::decode(alloc, reader)?,
        })
    }
}
