//! The line of one UART.
ghost use Rattle.std.specs.Prelude.{◌≡◌, ◌++◌, ◌∷◌, [], OnErr, OnOk, codes, string_bytes};
ghost use Rattle.std.specs.List.{flat_map};
ghost use Rattle.log_text.specs.Line as line_spec;
ghost use Rattle.log_text.specs.Log as log_spec;
ghost use Rattle.log_text.specs.Names.{place_name};
ghost use Rattle.log_text.specs.Number.{seconds};

use crate::names::{board_name, device_name};
use crate::number::Seconds;
use lab_num::{Member, Micros, NoMemory, Rows};
use log_merge::Names;
use std::alloc::Global;
use std::mem;

/// The most bytes of a line.
const MOST_BYTES: usize = 128;

/// The line of a UART: the bytes that it has sent since its last line ended, and the time of the
/// last of them. One that `Lines` holds has 1 to 127 bytes, none of them a line feed.
#[derive(Clone, PartialEq, Eq, Drop)]
pub struct OpenLine {
    pub member: Member,
    pub at: Micros,
    pub bytes: Rows<u8>,
}

/// A line of this device that has not begun, in the room of another one.
pub fn blank(mut room: Vec<u8>, member: Member) -> OpenLine
    ensures { result ≡ line_spec.blank member }
{
    room.clear();
    OpenLine {
        member,
        at: Micros(0),
        bytes: Rows::of(room),
    }
}

/// Whether a line has bytes and is not ended.
pub fn is_unended(line: &OpenLine) -> bool
    ensures { result ≡ line_spec.is_unended line.now }
{
    let bytes = line.bytes.items();
    !bytes.is_empty() && bytes.len() < MOST_BYTES && !bytes.contains(&b'\n')
}

/// Whether a byte ends the line: a line feed, or the 128th byte.
pub fn is_ending(line: &OpenLine, byte: u8) -> bool
    ensures { result ≡ line_spec.is_ending line.now byte }
{
    byte == b'\n' || line.bytes.items().len() + 1 >= MOST_BYTES
}

/// Adds a byte to the line, sent at this time. A line feed is no part of it. After an `Err` the line is as it
/// was.
pub fn gather(alloc: Global, line: &mut OpenLine, at: Micros, byte: u8) -> Result<(), NoMemory>
    ensures ok { OnOk result (line.new ≡ line_spec.gathered line.old at byte) }
    ensures err { OnErr result (line.new ≡ line.old) }
{
    if byte != b'\n' {
        push(alloc, &mut line.bytes, byte)?;
    }
    line.at = at;
    Ok(())
}

/// Puts a byte at the end of a list.
fn push(alloc: Global, list: &mut Rows<u8>, byte: u8) -> Result<(), NoMemory>
    ensures ok { OnOk result (list.new ≡ list.old ++ byte ∷ []) }
    ensures err { OnErr result (list.new ≡ list.old) }
{
    let mut bytes = mem::replace(list, Rows::of(Vec::new(alloc))).into_items();
    let pushed = bytes.push(byte);
    *list = Rows::of(bytes);
    pushed?;
    Ok(())
}

/// Writes the line to the end of the text.
#[tactic(auto, unfolding(crate::specs::Log::uart_line))]
pub fn print(line: &OpenLine, names: &Names, text: &mut String) -> Result<(), NoMemory>
    ensures { OnOk result (string_bytes text.new
        ≡ string_bytes text.old ++ log_spec.uart_line names.now line.now) }
{
    print_time(line.at, text)?;
    print_place(line.member, names, text)?;
    print_bytes(line.bytes.items(), text)?;
    text.push('\n')?;
    Ok(())
}

/// Writes a time in brackets and a blank.
fn print_time(at: Micros, text: &mut String) -> Result<(), NoMemory>
    ensures { OnOk result (string_bytes text.new
        ≡ string_bytes text.old ++ codes "[" ++ seconds at ++ codes "] ") }
{
    let at = Seconds(at);
    write!(text, "[{at}] ")?;
    Ok(())
}

/// Writes the name of a device, a colon and a blank.
fn print_place(member: Member, names: &Names, text: &mut String) -> Result<(), NoMemory>
    ensures { OnOk result (string_bytes text.new
        ≡ string_bytes text.old ++ place_name names.now member ++ codes ": ") }
{
    text.push_str(board_name(names, member.board))?;
    text.push('/')?;
    text.push_str(device_name(names, member))?;
    text.push_str(": ")?;
    Ok(())
}

/// Writes the bytes of a line as they are shown.
fn print_bytes(bytes: &[u8], text: &mut String) -> Result<(), NoMemory>
    ensures { OnOk result (string_bytes text.new
        ≡ string_bytes text.old ++ flat_map log_spec.escaped bytes.now) }
{
    for &byte in bytes {
        show(byte, text)?;
    }
    Ok(())
}

/// Writes a byte as it is shown: printable ones as they are, and others escaped.
fn show(byte: u8, text: &mut String) -> Result<(), NoMemory>
    ensures { OnOk result (string_bytes text.new
        ≡ string_bytes text.old ++ log_spec.escaped byte) }
{
    match byte {
        b'\\' => text.push_str("\\\\")?,
        b' '..=b'~' => text.push(char::from(byte))?,
        b'\t' => text.push_str("\\t")?,
        b'\r' => text.push_str("\\r")?,
        _ => write!(text, "\\x{byte:02x}")?,
    }
    Ok(())
}
