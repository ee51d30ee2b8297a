//! The numbers in the headers of an ELF file.
ghost use Rattle.std.specs.Prelude.{◌≡◌, ◌≤◌, ◌+◌, length};
ghost use Rattle.elf_load.specs.Fields as fields;

use byteorder::{ByteOrder, LittleEndian};

/// The 16 bits at a place.
#[tactic(auto, unfolding(crate::specs::Fields::half))]
pub(crate) fn half(bytes: &[u8], at: usize) -> u16
    requires { at + 2 ≤ length bytes.now }
    ensures { result ≡ fields.half bytes.now at }
{
    LittleEndian::read_u16(&bytes[at..])
}

/// The 32 bits at a place.
#[tactic(auto, unfolding(crate::specs::Fields::word))]
pub(crate) fn word(bytes: &[u8], at: usize) -> u32
    requires { at + 4 ≤ length bytes.now }
    ensures { result ≡ fields.word bytes.now at }
{
    LittleEndian::read_u32(&bytes[at..])
}
