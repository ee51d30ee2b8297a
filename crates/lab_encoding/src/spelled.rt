//! Types whose values have a spelling.
ghost use Rattle.std.specs.Prelude.{OnOk};
ghost use Rattle.lab_encoding.specs.Form.{Form, IsLawful};
ghost use Rattle.lab_encoding.specs.Reads.{Appends, Reads};

use crate::byte_reader::ByteReader;
use crate::fault::SnapFault;
use lab_num::NoMemory;
use std::alloc::Global;

/// A type whose values have one spelling each.
pub trait Spelled: Sized {
    /// How the values are spelled.
    ghost form: { Form Self };

    /// Writes the spelling at the end. Where memory runs out a part of it may stand there.
    fn encode(&self, out: &mut Vec<u8>) -> Result<(), NoMemory>
        ensures spelled { OnOk result (Appends out.old.items out.new.items (form.spell self.now)) }
        ensures fits { OnOk result (form.Fits self.now) };

    /// Reads the value that is spelled at the front. `Bad` comes where none is.
    fn decode(alloc: Global, reader: &mut ByteReader<'_>) -> Result<Self, SnapFault>
        ensures { Reads (form.parse reader.old) reader.new result };

    /// What is read is spelled so, and what is spelled so is read.
    ghost lawful: { IsLawful form };
}
