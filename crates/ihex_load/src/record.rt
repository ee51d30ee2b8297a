//! The records of an Intel HEX file, each of which is a line.
ghost use Rattle.std.specs.Prelude.{◌≡◌, ◌%◌, ◌≤◌, ◌<◌, ◌+◌, length, true, None, Ok};
ghost use Rattle.std.specs.List.{sum};
ghost use Rattle.ihex_load.specs.declared.record.Record.TheVariants.{Data};
ghost use Rattle.ihex_load.specs.Inner.Gives.{Gives};
ghost use Rattle.ihex_load.specs.Record as records;
ghost use Rattle.ihex_load.specs.Record.{count_of, kind_of};

use crate::fault::HexFault;
use crate::lines::is_blank_line;
use byteorder::{BigEndian, ByteOrder};
use hex::FromHexError;
use lab_num::Rows;
use std::alloc::Global;

/// What a line says.
#[derive(Drop)]
pub(crate) enum Record {
    /// The line is blank, or gives a start address, which has no effect.
    Nothing,
    /// Bytes at an offset from the base.
    Data { offset: u16, bytes: Rows<u8> },
    /// The file ends.
    EndOfFile,
    /// The base of later data is this address.
    Base(u32),
}

/// The bytes that hexadecimal digits write.
fn bytes_of(alloc: Global, digits: &[u8]) -> Result<Vec<u8>, HexFault>
    ensures { Gives (λ bytes. bytes.items) (records.bytes_of digits.now) result }
{
    match hex::decode(alloc, digits) {
        Ok(bytes) => Ok(bytes),
        Err(FromHexError::OutOfMemory) => Err(HexFault::Memory),
        Err(_) => Err(HexFault::Form),
    }
}

/// Whether a record of this type may have so many data bytes.
fn has_count(kind: u8, count: u8) -> bool
    ensures { result ≡ records.has_count kind count }
{
    match kind {
        0 => true,
        1 => count == 0,
        2 | 4 => count == 2,
        _ => count == 4,
    }
}

fn sum_of(bytes: &[u8]) -> u8
    ensures { result ≡ sum bytes.now % 256 }
{
    let mut sum = 0_u8;
    for byte in bytes {
        sum = sum.wrapping_add(*byte);
    }
    sum
}

/// The first fault of a record's bytes.
fn fault_of(bytes: &[u8]) -> Option<HexFault>
    ensures fault { result ≡ records.fault_of bytes.now }
    ensures long { result ≡ None → length bytes.now ≡ count_of bytes.now + 5 }
    ensures count { result ≡ None
        → records.has_count (kind_of bytes.now) (count_of bytes.now) ≡ true }
{
    if bytes.len() < 5 {
        return Some(HexFault::Form);
    }
    let count = bytes[0];
    let kind = bytes[3];
    if bytes.len() != usize::from(count) + 5 {
        Some(HexFault::Length)
    } else if sum_of(bytes) != 0 {
        Some(HexFault::Sum)
    } else if kind > 5 {
        Some(HexFault::Kind)
    } else if !has_count(kind, count) {
        Some(HexFault::Length)
    } else {
        None
    }
}

/// The record of type 00 of these bytes.
fn data_record(alloc: Global, bytes: &[u8]) -> Result<Record, HexFault>
    requires { length bytes.now ≡ count_of bytes.now + 5 }
    ensures { Gives (λ record_. record_)
        (Ok (Data (records.offset_of bytes.now) (records.data_of bytes.now))) result }
{
    let data = Vec::from_slice(alloc, &bytes[4..4 + usize::from(bytes[0])])?;
    Ok(Record::Data {
        offset: BigEndian::read_u16(&bytes[1..]),
        bytes: Rows::of(data),
    })
}

/// The address in the data of a record of type 02 or 04, in units of its type.
fn value_of(bytes: &[u8]) -> u32
    requires { 6 ≤ length bytes.now }
    ensures value { result ≡ records.value_of bytes.now }
    ensures fits { result < 65536 }
{
    u32::from(BigEndian::read_u16(&bytes[4..]))
}

/// What the bytes of a record without fault say.
fn meaning_of(alloc: Global, bytes: &[u8]) -> Result<Record, HexFault>
    requires long { length bytes.now ≡ count_of bytes.now + 5 }
    requires count { records.has_count (kind_of bytes.now) (count_of bytes.now) ≡ true }
    ensures { Gives (λ record_. record_) (Ok (records.meaning_of bytes.now)) result }
{
    match bytes[3] {
        0 => data_record(alloc, bytes),
        1 => Ok(Record::EndOfFile),
        2 => Ok(Record::Base(value_of(bytes) * 16)),
        4 => Ok(Record::Base(value_of(bytes) * 65_536)),
        _ => Ok(Record::Nothing),
    }
}

fn record_of(alloc: Global, bytes: &[u8]) -> Result<Record, HexFault>
    ensures { Gives (λ record_. record_) (records.checked bytes.now) result }
{
    match fault_of(bytes) {
        Some(fault) => Err(fault),
        None => meaning_of(alloc, bytes),
    }
}

fn read_digits(alloc: Global, digits: &[u8]) -> Result<Record, HexFault>
    ensures { Gives (λ record_. record_) (records.of_digits digits.now) result }
{
    let bytes = bytes_of(alloc, digits)?;
    record_of(alloc, &bytes)
}

/// What a line says, or its first fault.
#[tactic(auto, unfolding(crate::specs::Record::line_of))]
pub(crate) fn read_line(alloc: Global, line: &[u8]) -> Result<Record, HexFault>
    ensures { Gives (λ record_. record_) (records.line_of line.now) result }
{
    if is_blank_line(line) {
        return Ok(Record::Nothing);
    }
    match line.strip_prefix(b":") {
        Some(digits) => read_digits(alloc, digits),
        None => Err(HexFault::Form),
    }
}
