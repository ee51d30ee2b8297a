//! Frames of CAN controllers as the log prints them.
ghost use Rattle.std.specs.Prelude.{◌≡◌, ◌++◌, OnOk, string_bytes};
ghost use Rattle.log_text.specs.Frame as frame_spec;
ghost use Rattle.log_text.specs.Number.{hexadecimal};

use crate::number::Identifier;
use dev_core::Frame;
use lab_num::NoMemory;

/// Writes a frame to the end of the text.
#[tactic(auto, unfolding(crate::specs::Frame::frame_text))]
pub fn write_frame(frame: &Frame, text: &mut String) -> Result<(), NoMemory>
    ensures { OnOk result (string_bytes text.new
        ≡ string_bytes text.old ++ frame_spec.frame_text frame.now) }
{
    let id = Identifier(frame.id());
    let kind = kind_of(frame.is_remote());
    let len = frame.len();
    write!(text, "{id} {kind} {len}")?;
    write_data(frame.data(), text)
}

fn kind_of(is_remote: bool) -> &'static str
    ensures { result.now ≡ frame_spec.kind_text is_remote }
{
    if is_remote { "remote" } else { "data" }
}

/// Writes a blank and the bytes that a frame carries, or nothing where it carries none.
fn write_data(bytes: &[u8], text: &mut String) -> Result<(), NoMemory>
    ensures { OnOk result (string_bytes text.new
        ≡ string_bytes text.old ++ frame_spec.data_text bytes.now) }
{
    if bytes.is_empty() {
        return Ok(());
    }
    text.push(' ')?;
    write_pairs(bytes, text)
}

/// Writes bytes as pairs of digits.
fn write_pairs(bytes: &[u8], text: &mut String) -> Result<(), NoMemory>
    ensures { OnOk result (string_bytes text.new
        ≡ string_bytes text.old ++ frame_spec.pairs bytes.now) }
{
    for &byte in bytes {
        write_pair(byte, text)?;
    }
    Ok(())
}

#[tactic(auto, using(crate::proofs::Digits::filled_two))]
fn write_pair(byte: u8, text: &mut String) -> Result<(), NoMemory>
    ensures { OnOk result (string_bytes text.new ≡ string_bytes text.old ++ hexadecimal 2 byte) }
{
    write!(text, "{byte:02x}")?;
    Ok(())
}
