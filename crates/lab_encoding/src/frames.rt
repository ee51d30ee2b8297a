//! Frames, and what receivers hold: rows of bytes and of frames.
ghost use Rattle.std.specs.Prelude.{◌≡◌, ◌<◌, ◌≤◌, ◌==◌, true, false};
ghost use Rattle.std.specs.List.{list_all};
ghost use Rattle.lab_encoding.specs.Frames.{frame_of};

use crate::byte_reader::ByteReader;
use crate::fault::SnapFault;
use crate::lists::encode_each;
use crate::spelled::Spelled;
use dev_core::{ByteRow, Frame, FrameRow};
use lab_num::{NoMemory, Rows};
use std::alloc::Global;

fn are_zero(bytes: &[u8]) -> bool
    ensures { result ≡ list_all (λ b. b == 0) bytes.now }
{
    bytes.iter().all(|&byte| byte == 0)
}

/// The remote frame of these fields, if there is one.
fn remote_of(id: u16, len: u8, bytes: &[u8; 8]) -> Option<Frame>
    requires id { id < 2048 }
    requires len { len ≤ 8 }
    ensures { result ≡ frame_of (record { id = id; remote = true; len = len; bytes = bytes.now }) }
{
    if !are_zero(bytes) {
        return None;
    }
    Some(Frame::new_remote(id, len))
}

/// The data frame of these fields, if there is one.
fn data_of(id: u16, len: u8, bytes: &[u8; 8]) -> Option<Frame>
    requires id { id < 2048 }
    requires len { len ≤ 8 }
    ensures { result ≡ frame_of (record { id = id; remote = false; len = len; bytes = bytes.now }) }
{
    let (carried, others) = bytes.split_at(usize::from(len));
    if !are_zero(others) {
        return None;
    }
    Some(Frame::new(id, carried))
}

/// The frame of these fields, if there is one.
fn frame_of(id: u16, remote: bool, len: u8, bytes: &[u8; 8]) -> Option<Frame>
    ensures { result ≡ frame_of (record { id = id; remote = remote; len = len; bytes = bytes.now }) }
{
    if id >= 2048 || len > 8 {
        return None;
    }
    if remote {
        remote_of(id, len, bytes)
    } else {
        data_of(id, len, bytes)
    }
}

impl Spelled for Frame {
    ghost use Rattle.lab_encoding.specs.Frames.{frame_form, frame_lawful};

    ghost form = { frame_form };

    ghost lawful = { frame_lawful };

    #[tactic(auto, unfolding(crate::specs::Frames::frame_form, crate::specs::Frames::frame_fields))]
    fn encode(&self, out: &mut Vec<u8>) -> Result<(), NoMemory> {
        self.id().encode(out)?;
        self.is_remote().encode(out)?;
        self.len().encode(out)?;
        self.places().encode(out)?;
        Ok(())
    }

    #[tactic(auto, unfolding(crate::specs::Frames::frame_form, crate::specs::Frames::frame_fields))]
    fn decode(alloc: Global, reader: &mut ByteReader<'_>) -> Result<Frame, SnapFault> {
        let id = u16::decode(alloc, reader)?;
        let remote = bool::decode(alloc, reader)?;
        let len = u8::decode(alloc, reader)?;
        let bytes: [u8; 8] = Spelled::decode(alloc, reader)?;
        match frame_of(id, remote, len, &bytes) {
            Some(frame) => Ok(frame),
            None => Err(SnapFault::Bad),
        }
    }
}

impl Spelled for ByteRow {
    ghost use Rattle.lab_encoding.specs.Frames.{byte_row_form, byte_row_lawful};

    ghost form = { byte_row_form };

    ghost lawful = { byte_row_lawful };

    #[tactic(auto, unfolding(crate::specs::Frames::byte_row_form))]
    fn encode(&self, out: &mut Vec<u8>) -> Result<(), NoMemory> {
        let bytes = self.items();
        (bytes.len() as u64).encode(out)?;
        encode_each(bytes, out)?;
        Ok(())
    }

    #[tactic(auto, unfolding(crate::specs::Frames::byte_row_form))]
    fn decode(alloc: Global, reader: &mut ByteReader<'_>) -> Result<ByteRow, SnapFault> {
        let bytes: Rows<u8> = Spelled::decode(alloc, reader)?;
        let bytes = bytes.items();
        if bytes.len() > 16 {
            return Err(SnapFault::Bad);
        }
        Ok(ByteRow::of(bytes))
    }
}

impl Spelled for FrameRow {
    ghost use Rattle.lab_encoding.specs.Frames.{frame_row_form, frame_row_lawful};

    ghost form = { frame_row_form };

    ghost lawful = { frame_row_lawful };

    #[tactic(auto, unfolding(crate::specs::Frames::frame_row_form))]
    fn encode(&self, out: &mut Vec<u8>) -> Result<(), NoMemory> {
        let frames = self.items();
        (frames.len() as u64).encode(out)?;
        encode_each(frames, out)?;
        Ok(())
    }

    #[tactic(auto, unfolding(crate::specs::Frames::frame_row_form))]
    fn decode(alloc: Global, reader: &mut ByteReader<'_>) -> Result<FrameRow, SnapFault> {
        let frames: Rows<Frame> = Spelled::decode(alloc, reader)?;
        let frames = frames.items();
        if frames.len() > 32 {
            return Err(SnapFault::Bad);
        }
        Ok(FrameRow::of(frames))
    }
}
