//! A list is the count of its members in 8 bytes, and the members; an array is its members.
ghost use Rattle.std.specs.Prelude.{OnOk};
ghost use Rattle.std.specs.List.{AllByRecursion, flat_map};
ghost use Rattle.lab_encoding.specs.Combine.{list, parse_times, times};
ghost use Rattle.lab_encoding.specs.Reads.{Appends, Reads};
ghost use Rattle.lab_encoding.specs.Inner.Laws.{list_lawful, times_lawful};

use crate::byte_reader::ByteReader;
use crate::fault::SnapFault;
use crate::spelled::Spelled;
use lab_num::{NoMemory, Rows};
use std::alloc::Global;

/// Writes the spellings of all items, one after another.
pub(crate) fn encode_each<T: Spelled>(items: &[T], out: &mut Vec<u8>) -> Result<(), NoMemory>
    ensures spelled { OnOk result (Appends out.old.items out.new.items (flat_map T.form.spell items.now)) }
    ensures fits { OnOk result (AllByRecursion T.form.Fits items.now) }
{
    for item in items {
        item.encode(out)?;
    }
    Ok(())
}

/// Writes the spelling of the list of these items at the end. Where memory runs out a part of it may
/// stand there.
pub fn encode_list<T: Spelled>(items: &[T], out: &mut Vec<u8>) -> Result<(), NoMemory>
    ensures spelled { OnOk result
        (Appends out.old.items out.new.items ((list T.form).spell items.now)) }
    ensures fits { OnOk result ((list T.form).Fits items.now) }
{
    (items.len() as u64).encode(out)?;
    encode_each(items, out)
}

/// Reads `count` items. Nothing is reserved for a count, which may be larger than the bytes.
fn decode_times<T: Spelled + Drop>(
    alloc: Global,
    count: u64,
    reader: &mut ByteReader<'_>,
) -> Result<Rows<T>, SnapFault>
    ensures { Reads (parse_times T.form count reader.old) reader.new result }
{
    let mut items = Vec::new(alloc);
    for _ in 0..count {
        items.push(T::decode(alloc, reader)?)?;
    }
    Ok(Rows::of(items))
}

impl<T: Spelled + Drop> Spelled for Rows<T> {
    ghost form = { list T.form };

    ghost lawful = { list_lawful T.lawful };

    fn encode(&self, out: &mut Vec<u8>) -> Result<(), NoMemory> {
        encode_list(self.items(), out)
    }

    fn decode(alloc: Global, reader: &mut ByteReader<'_>) -> Result<Rows<T>, SnapFault> {
        let count = u64::decode(alloc, reader)?;
        decode_times(alloc, count, reader)
    }
}

impl<T: Spelled + Default + Copy, const N: usize> Spelled for [T; N] {
    ghost form = { times N T.form };

    ghost lawful = { times_lawful N T.lawful };

    fn encode(&self, out: &mut Vec<u8>) -> Result<(), NoMemory> {
        encode_each(self, out)
    }

    fn decode(alloc: Global, reader: &mut ByteReader<'_>) -> Result<[T; N], SnapFault> {
        let mut values = [T::default(); N];
        for i in 0..N {
            values[i] = T::decode(alloc, reader)?;
        }
        Ok(values)
    }
}
