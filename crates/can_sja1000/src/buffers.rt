//! How a frame lies in the transmit and in the receive buffer (SJA1000 data sheet, sections 6.3.7
//! and 6.3.8).
ghost use Rattle.std.specs.Prelude.{◌≡◌, slice_index};
ghost use Rattle.dev_core.specs.CanFrame.{frame_bytes, frame_of};

use crate::bits::RTR;
use dev_core::{Frame, is_set};

/// The frame's byte at this place of the receive buffer; 0 past its end.
pub fn byte_at(frame: &Frame, place: usize) -> u8
    ensures { result ≡ slice_index (frame_bytes frame.now) place }
{
    let id = frame.id();
    match place {
        0 => (id >> 3) as u8,
        1 => ((id & 7) << 5) as u8 + (u8::from(frame.is_remote()) << 4) + frame.len(),
        _ => frame.data().get(place - 2).copied().unwrap_or(0),
    }
}

/// The frame that the bytes of the transmit buffer say.
pub fn frame_of(bytes: &[u8; 10]) -> Frame
    ensures { result ≡ frame_of bytes.now }
{
    let id = (u16::from(bytes[0]) << 3) + u16::from(bytes[1] >> 5);
    let len = (bytes[1] & 0x0F).min(8);
    if is_set(bytes[1], RTR) {
        Frame::new_remote(id, len)
    } else {
        Frame::new(id, &bytes[2..2 + usize::from(len)])
    }
}
