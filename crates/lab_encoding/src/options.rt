//! An option is 0, or 1 and the value.
ghost use Rattle.lab_encoding.specs.Combine.{option};
ghost use Rattle.lab_encoding.specs.Inner.Laws.{option_lawful};

use crate::byte_reader::ByteReader;
use crate::fault::SnapFault;
use crate::spelled::Spelled;
use lab_num::NoMemory;
use std::alloc::Global;

impl<T: Spelled> Spelled for Option<T> {
    ghost form = { option T.form };

    ghost lawful = { option_lawful T.lawful };

    fn encode(&self, out: &mut Vec<u8>) -> Result<(), NoMemory> {
        match self {
            None => out.push(0)?,
            Some(value) => {
                out.push(1)?;
                value.encode(out)?;
            }
        }
        Ok(())
    }

    fn decode(alloc: Global, reader: &mut ByteReader<'_>) -> Result<Option<T>, SnapFault> {
        match reader.byte()? {
            0 => Ok(None),
            1 => Ok(Some(T::decode(alloc, reader)?)),
            _ => Err(SnapFault::Bad),
        }
    }
}
