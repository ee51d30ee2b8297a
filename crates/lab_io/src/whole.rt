//! Files of at most 16 MiB that are read whole, as bytes or as a text, and pieces that are written whole.
ghost use Rattle.std.specs.Prelude.{◌≡◌, ◌+◌, ◌==◌, ◌≤◌, length, take, count_by, []};
ghost use Rattle.std.specs.Prelude.{Err, IfOk, IfErr, IsErrOf, IsOk, OnOk, OnErr};
ghost use Rattle.std.specs.FinMap.{get};
ghost use Rattle.std.specs.Option.{ForSome};
ghost use Rattle.std.specs.String.{string_bytes};
ghost use Rattle.lab_io.specs.Known.{grown};
ghost use Rattle.lab_io.specs.Frame.{OnlyReads, OnlyWrites};
ghost use Rattle.lab_io.specs.Sink.{IsPartWritten};
ghost use Rattle.lab_io.specs.Whole.{Broken, Readable, IsFileRead, IsTextRead, bytes_text};

use crate::files::{Files, ReadAnswer};
use crate::sink::{Sink, WriteFault, Wrote};
use std::alloc::{AllocError, Global};
use std::str;

/// The most bytes of a file.
const MOST_BYTES: usize = 16_777_216;

/// Why a file was not read.
#[derive(Clone, Copy)]
pub enum ReadFault {
    /// The read failed, and the files counted it.
    Unread,
    /// The file has more than 16,777,216 bytes.
    TooLarge,
    /// Memory ran out.
    Memory,
}

/// Why the text of a file was not read.
#[derive(Clone, Copy, PartialEq, Eq)]
pub enum TextFault {
    /// The read failed, and the files counted it.
    Unread,
    /// The file has more than 16,777,216 bytes.
    TooLarge,
    /// The file is not UTF-8. The line, counted from 1, is that of the first byte after its longest
    /// prefix that is.
    NotText { line: u32 },
    /// Memory ran out.
    Memory,
}

impl From<ReadFault> for TextFault {
    ghost use Rattle.std.specs.Prelude.{◌≡◌};
    ghost use Rattle.lab_io.specs.Whole.{text_fault};

    ghost from_gives = { λ fault told. told ≡ text_fault fault };

    fn from(fault: ReadFault) -> TextFault {
        match fault {
            ReadFault::Unread => TextFault::Unread,
            ReadFault::TooLarge => TextFault::TooLarge,
            ReadFault::Memory => TextFault::Memory,
        }
    }
}

impl From<AllocError> for TextFault {
    ghost use Rattle.std.specs.Prelude.{◌≡◌};
    ghost use Rattle.lab_io.specs.declared.whole.TextFault.TheVariants.{Memory};

    ghost from_gives = { λ _ fault. fault ≡ Memory };

    fn from(_error: AllocError) -> TextFault {
        TextFault::Memory
    }
}

/// Reads the file of a name whole.
pub fn read_file<F: Files>(alloc: Global, files: &mut F, name: &str) -> Result<Vec<u8>, ReadFault>
    ensures read { ForSome (F.held files.old) (λ held. IsFileRead (get held name.now) name.now
        result (F.asked files.old) (F.asked files.new)) }
    ensures short { IfOk result (λ bytes. length bytes.items ≤ 16777216) }
    ensures files { OnlyReads F.Files (result ≡ Err ReadFault.Unread) files.old files.new }
{
    let mut bytes = Vec::new(alloc);
    match files.read(name, MOST_BYTES, &mut bytes) {
        ReadAnswer::Done => Ok(bytes),
        ReadAnswer::Failed => Err(ReadFault::Unread),
        ReadAnswer::TooLarge => Err(ReadFault::TooLarge),
        ReadAnswer::Memory => Err(ReadFault::Memory),
    }
}

/// Reads the text of the file of a name.
pub fn read_text<F: Files>(alloc: Global, files: &mut F, name: &str) -> Result<String, TextFault>
    ensures read { ForSome (F.held files.old) (λ held. IsTextRead (get held name.now) name.now
        result (F.asked files.old) (F.asked files.new)) }
    ensures short { IfOk result (λ text. length (string_bytes text) ≤ 16777216) }
    ensures files { OnlyReads F.Files (result ≡ Err TextFault.Unread) files.old files.new }
{
    let bytes = read_file(alloc, files, name)?;
    match text_of(&bytes) {
        Ok(text) => Ok(String::from_str(alloc, text)?),
        Err(line) => Err(TextFault::NotText { line }),
    }
}

/// The text that these bytes are, or the line, counted from 1, of the first byte after their longest
/// prefix that is UTF-8.
fn text_of(bytes: &[u8]) -> Result<&str, u32>
    requires { length bytes.now ≤ 16777216 }
    ensures same { IfOk result (λ text. text.now ≡ bytes.now) }
    ensures text { IfOk result (λ text. bytes_text bytes.now ≡ Readable text.now) }
    ensures line { IfErr result (λ line. bytes_text bytes.now ≡ Broken line) }
{
    match str::from_utf8(bytes) {
        Ok(text) => Ok(text),
        Err(fault) => Err(line_at(bytes, fault.valid_up_to())),
    }
}

/// The line of the byte at this place, counted from 1: how many line feeds come before it, and one.
fn line_at(bytes: &[u8], at: usize) -> u32
    requires few { length bytes.now ≤ 16777216 }
    requires inside { at ≤ length bytes.now }
    ensures { result ≡ count_by (λ byte. byte == 10) (take at bytes.now) + 1 }
{
    bytes[..at].iter().filter(|byte| **byte == b'\n').count() as u32 + 1
}

/// Writes the whole piece, by as many writes as it takes, and none where it is empty.
/// It stops at the first write that takes nothing.
pub fn write_whole<K: Sink>(out: &mut K, piece: &[u8]) -> Result<(), WriteFault>
    ensures whole { OnOk result (K.written out.new ≡ grown (K.written out.old) piece.now) }
    ensures part { OnErr result (IsPartWritten (K.written out.old) piece.now (K.written out.new)) }
    ensures output { OnlyWrites K.Sink (IsErrOf result WriteFault.Unwritten) out.old out.new }

    ensures empty { piece.now ≡ [] → (IsOk result) × (out.new ≡ out.old) }
{
    let mut at = 0;
    while at < piece.len() {
        match out.write(&piece[at..]) {
            Wrote::Took(count) => at += count,
            Wrote::Failed => return Err(WriteFault::Unwritten),
            Wrote::Memory => return Err(WriteFault::Memory),
        }
    }
    Ok(())
}
