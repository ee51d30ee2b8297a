//! The memories of a board, one for each size of its plan.
ghost use Rattle.std.specs.Prelude.{◌≡◌, All, IfOk, OnOk, length, map};
ghost use Rattle.page_ram.specs.Access.{IsRamSize};
ghost use Rattle.lab_encoding.specs.Combine.{each, parse_each};
ghost use Rattle.lab_encoding.specs.Reads.{Appends, Reads};
ghost use Rattle.lab_snap.specs.MachineForm.{memories_form, sized_form};

use crate::memory::{decode_memory, encode_memory};
use lab_encoding::{ByteReader, SnapFault, Spelled};
use lab_num::{NoMemory, Rows};
use page_ram::{PAGE_SIZE, PageRam};
use std::alloc::Global;

/// Writes the memories, one after another.
fn encode_each(sizes: &[u32], memories: &[PageRam], out: &mut Vec<u8>) -> Result<(), NoMemory>
    requires whole { All IsRamSize sizes.now }
    requires sizes { map length memories.now ≡ sizes.now }
    ensures spelled { OnOk result
        (Appends out.old.items out.new.items ((each sized_form sizes.now).spell memories.now)) }
    ensures fits { OnOk result ((each sized_form sizes.now).Fits memories.now) }
{
    for k in 0..sizes.len() {
        encode_memory(&memories[k], sizes[k] / PAGE_SIZE, out)?;
    }
    Ok(())
}

/// Reads a memory of each size.
fn decode_each(
    alloc: Global,
    sizes: &[u32],
    reader: &mut ByteReader<'_>,
) -> Result<Rows<PageRam>, SnapFault>
    requires { All IsRamSize sizes.now }
    ensures reads { Reads (parse_each sized_form sizes.now reader.old) reader.new result }
    ensures sizes { IfOk result (λ memories. map length memories ≡ sizes.now) }
{
    let mut memories = Vec::new(alloc);
    for &size in sizes {
        memories.push(decode_memory(alloc, size / PAGE_SIZE, reader)?)?;
    }
    Ok(Rows::of(memories))
}

/// Writes the list of the memories.
#[tactic(auto, unfolding(crate::specs::MachineForm::memories_form))]
pub(crate) fn encode_memories(
    sizes: &[u32],
    memories: &[PageRam],
    out: &mut Vec<u8>,
) -> Result<(), NoMemory>
    requires whole { All IsRamSize sizes.now }
    requires sizes { map length memories.now ≡ sizes.now }
    ensures spelled { OnOk result
        (Appends out.old.items out.new.items ((memories_form sizes.now).spell memories.now)) }
    ensures fits { OnOk result ((memories_form sizes.now).Fits memories.now) }
{
    (sizes.len() as u64).encode(out)?;
    encode_each(sizes, memories, out)
}

/// Reads the list of the memories of these sizes.
#[tactic(auto, unfolding(crate::specs::MachineForm::memories_form))]
pub(crate) fn decode_memories(
    alloc: Global,
    sizes: &[u32],
    reader: &mut ByteReader<'_>,
) -> Result<Rows<PageRam>, SnapFault>
    requires { All IsRamSize sizes.now }
    ensures reads { Reads ((memories_form sizes.now).parse reader.old) reader.new result }
    ensures sizes { IfOk result (λ memories. map length memories ≡ sizes.now) }
{
    reader.skip_mark(&(sizes.len() as u64).to_le_bytes())?;
    decode_each(alloc, sizes, reader)
}
