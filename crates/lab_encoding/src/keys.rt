//! Times, numbers of boards and posts, keys and members: their fields in order.
use crate::byte_reader::ByteReader;
use crate::fault::SnapFault;
use crate::spelled::Spelled;
use lab_num::{BoardNo, Key, Member, Micros, NoMemory, PostNo};
use std::alloc::Global;

impl Spelled for Micros {
    ghost use Rattle.lab_encoding.specs.Keys.{micros_form, micros_lawful};

    ghost form = { micros_form };

    ghost lawful = { micros_lawful };

    #[tactic(auto, unfolding(crate::specs::Keys::micros_form))]
    fn encode(&self, out: &mut Vec<u8>) -> Result<(), NoMemory> {
        self.0.encode(out)?;
        Ok(())
    }

    #[tactic(auto, unfolding(crate::specs::Keys::micros_form))]
    fn decode(alloc: Global, reader: &mut ByteReader<'_>) -> Result<Micros, SnapFault> {
        Ok(Micros(Spelled::decode(alloc, reader)?))
    }
}

impl Spelled for BoardNo {
    ghost use Rattle.lab_encoding.specs.Keys.{board_no_form, board_no_lawful};

    ghost form = { board_no_form };

    ghost lawful = { board_no_lawful };

    #[tactic(auto, unfolding(crate::specs::Keys::board_no_form))]
    fn encode(&self, out: &mut Vec<u8>) -> Result<(), NoMemory> {
        self.0.encode(out)?;
        Ok(())
    }

    #[tactic(auto, unfolding(crate::specs::Keys::board_no_form))]
    fn decode(alloc: Global, reader: &mut ByteReader<'_>) -> Result<BoardNo, SnapFault> {
        Ok(BoardNo(Spelled::decode(alloc, reader)?))
    }
}

impl Spelled for PostNo {
    ghost use Rattle.lab_encoding.specs.Keys.{post_no_form, post_no_lawful};

    ghost form = { post_no_form };

    ghost lawful = { post_no_lawful };

    #[tactic(auto, unfolding(crate::specs::Keys::post_no_form))]
    fn encode(&self, out: &mut Vec<u8>) -> Result<(), NoMemory> {
        self.0.encode(out)?;
        Ok(())
    }

    #[tactic(auto, unfolding(crate::specs::Keys::post_no_form))]
    fn decode(alloc: Global, reader: &mut ByteReader<'_>) -> Result<PostNo, SnapFault> {
        Ok(PostNo(Spelled::decode(alloc, reader)?))
    }
}

impl Spelled for Key {
    ghost use Rattle.lab_encoding.specs.Keys.{key_form, key_lawful};

    ghost form = { key_form };

    ghost lawful = { key_lawful };

    #[tactic(auto, unfolding(crate::specs::Keys::key_form))]
    fn encode(&self, out: &mut Vec<u8>) -> Result<(), NoMemory> {
        self.at.encode(out)?;
        self.board.encode(out)?;
        self.number.encode(out)?;
        Ok(())
    }

    #[tactic(auto, unfolding(crate::specs::Keys::key_form))]
    fn decode(alloc: Global, reader: &mut ByteReader<'_>) -> Result<Key, SnapFault> {
        Ok(Key {
            at: Spelled::decode(alloc, reader)?,
            board: Spelled::decode(alloc, reader)?,
            number: Spelled::decode(alloc, reader)?,
        })
    }
}

impl Spelled for Member {
    ghost use Rattle.lab_encoding.specs.Keys.{member_form, member_lawful};

    ghost form = { member_form };

    ghost lawful = { member_lawful };

    #[tactic(auto, unfolding(crate::specs::Keys::member_form))]
    fn encode(&self, out: &mut Vec<u8>) -> Result<(), NoMemory> {
        self.board.encode(out)?;
        self.dev.encode(out)?;
        Ok(())
    }

    #[tactic(auto, unfolding(crate::specs::Keys::member_form))]
    fn decode(alloc: Global, reader: &mut ByteReader<'_>) -> Result<Member, SnapFault> {
        Ok(Member {
            board: Spelled::decode(alloc, reader)?,
            dev: Spelled::decode(alloc, reader)?,
        })
    }
}
