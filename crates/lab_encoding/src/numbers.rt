//! Numbers stand little-endian in their type's width, and a flag is 0 or 1.
ghost use Rattle.lab_encoding.specs.Combine.{byte, flag, number};
ghost use Rattle.lab_encoding.specs.Inner.Laws.{byte_lawful, flag_lawful, number_lawful};

use crate::byte_reader::ByteReader;
use crate::fault::SnapFault;
use crate::spelled::Spelled;
use byteorder::{ByteOrder, LittleEndian};
use lab_num::NoMemory;
use std::alloc::Global;

impl Spelled for u8 {
    ghost form = { byte };

    ghost lawful = { byte_lawful };

    fn encode(&self, out: &mut Vec<u8>) -> Result<(), NoMemory> {
        out.push(*self)?;
        Ok(())
    }

    fn decode(_alloc: Global, reader: &mut ByteReader<'_>) -> Result<u8, SnapFault> {
        reader.byte()
    }
}

impl Spelled for u16 {
    ghost form = { number 2 };

    ghost lawful = { number_lawful 2 };

    fn encode(&self, out: &mut Vec<u8>) -> Result<(), NoMemory> {
        out.extend_from_slice(&self.to_le_bytes())?;
        Ok(())
    }

    fn decode(_alloc: Global, reader: &mut ByteReader<'_>) -> Result<u16, SnapFault> {
        Ok(LittleEndian::read_u16(reader.front(2)?))
    }
}

impl Spelled for u32 {
    ghost form = { number 4 };

    ghost lawful = { number_lawful 4 };

    fn encode(&self, out: &mut Vec<u8>) -> Result<(), NoMemory> {
        out.extend_from_slice(&self.to_le_bytes())?;
        Ok(())
    }

    fn decode(_alloc: Global, reader: &mut ByteReader<'_>) -> Result<u32, SnapFault> {
        Ok(LittleEndian::read_u32(reader.front(4)?))
    }
}

impl Spelled for u64 {
    ghost form = { number 8 };

    ghost lawful = { number_lawful 8 };

    fn encode(&self, out: &mut Vec<u8>) -> Result<(), NoMemory> {
        out.extend_from_slice(&self.to_le_bytes())?;
        Ok(())
    }

    fn decode(_alloc: Global, reader: &mut ByteReader<'_>) -> Result<u64, SnapFault> {
        Ok(LittleEndian::read_u64(reader.front(8)?))
    }
}

impl Spelled for u128 {
    ghost form = { number 16 };

    ghost lawful = { number_lawful 16 };

    fn encode(&self, out: &mut Vec<u8>) -> Result<(), NoMemory> {
        out.extend_from_slice(&self.to_le_bytes())?;
        Ok(())
    }

    fn decode(_alloc: Global, reader: &mut ByteReader<'_>) -> Result<u128, SnapFault> {
        Ok(LittleEndian::read_u128(reader.front(16)?))
    }
}

impl Spelled for bool {
    ghost form = { flag };

    ghost lawful = { flag_lawful };

    fn encode(&self, out: &mut Vec<u8>) -> Result<(), NoMemory> {
        out.push(u8::from(*self))?;
        Ok(())
    }

    fn decode(_alloc: Global, reader: &mut ByteReader<'_>) -> Result<bool, SnapFault> {
        match reader.byte()? {
            0 => Ok(false),
            1 => Ok(true),
            _ => Err(SnapFault::Bad),
        }
    }
}
