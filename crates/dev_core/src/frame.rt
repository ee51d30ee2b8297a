//! The frames of a CAN bus.
ghost use Rattle.std.specs.Prelude.{◌≡◌, ◌<◌, ◌≤◌, length, take};
ghost use Rattle.dev_core.specs.Frame.{data_frame, remote_frame, carried, held_size, IsFrame};

use std::marker::Model;

/// A frame with an identifier of 11 bits: a data frame with up to eight bytes, or a remote frame,
/// which asks for so many bytes and carries none.
#[derive(Clone, Copy, PartialEq, Eq)]
pub struct Frame {
    id: u16,
    remote: bool,
    len: u8,
    bytes: [u8; 8],
}

impl Model for Frame {
    ghost use Rattle.dev_core.specs.Frame.{FrameData, IsFrame};

    ghost Value = { FrameData };

    ghost view = { λ f. record { id = f.id; remote = f.remote; len = f.len; bytes = f.bytes } };

    ghost invariant = { λ f. IsFrame
        (record { id = f.id; remote = f.remote; len = f.len; bytes = f.bytes }) };

    ghost inverse = { λ f. record { id = f.id; remote = f.remote; len = f.len; bytes = f.bytes } };
}

impl Frame {
    /// A data frame that carries these bytes.
    pub fn new(id: u16, bytes: &[u8]) -> Frame
        requires id { id < 2048 }
        requires len { length bytes.now ≤ 8 }
        ensures { result ≡ data_frame id bytes.now }
    {
        let len = bytes.len();
        let mut places = [0; 8];
        places[..len].copy_from_slice(bytes);
        Frame {
            id,
            remote: false,
            len: len as u8,
            bytes: places,
        }
    }

    /// A remote frame, which asks for `len` bytes.
    pub fn new_remote(id: u16, len: u8) -> Frame
        requires id { id < 2048 }
        requires len { len ≤ 8 }
        ensures { result ≡ remote_frame id len }
    {
        Frame {
            id,
            remote: true,
            len,
            bytes: [0; 8],
        }
    }

    pub fn id(&self) -> u16
        ensures value { result ≡ self.now.id }
        ensures fits { result < 2048 }
    {
        self.id
    }

    pub fn is_remote(&self) -> bool
        ensures { result ≡ self.now.remote }
    {
        self.remote
    }

    /// How many bytes the frame carries, or asks for.
    pub fn len(&self) -> u8
        ensures value { result ≡ self.now.len }
        ensures fits { result ≤ 8 }
    {
        self.len
    }

    /// The bytes that the frame carries.
    pub fn data(&self) -> &[u8]
        ensures value { result.now ≡ take (carried self.now) self.now.bytes }
        ensures length { length result.now ≡ carried self.now }
        ensures fits { length result.now ≤ 8 }
    {
        let carried = if self.remote { 0 } else { self.len as usize };
        &self.bytes[..carried]
    }

    /// All eight places for bytes. Those that carry nothing are 0, as in each frame.
    pub fn places(&self) -> [u8; 8]
        ensures value { result ≡ self.now.bytes }
        ensures valid { IsFrame self.now }
    {
        self.bytes
    }

    /// How many bytes the frame takes in the receive FIFO of a CAN controller.
    pub fn held_size(&self) -> usize
        ensures value { result ≡ held_size self.now }
        ensures fits { result ≤ 10 }
    {
        2 + self.data().len()
    }
}
