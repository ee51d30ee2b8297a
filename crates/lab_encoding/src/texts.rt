//! A text is a list of bytes, which are UTF-8.
use crate::byte_reader::ByteReader;
use crate::fault::SnapFault;
use crate::lists::encode_list;
use crate::spelled::Spelled;
use lab_num::{NoMemory, Rows, Text};
use std::alloc::Global;

impl Spelled for Text {
    ghost use Rattle.lab_encoding.specs.Combine.{text};
    ghost use Rattle.lab_encoding.specs.Inner.Laws.{text_lawful};

    ghost form = { text };

    ghost lawful = { text_lawful };

    #[tactic(auto, unfolding(crate::specs::Combine::text))]
    fn encode(&self, out: &mut Vec<u8>) -> Result<(), NoMemory> {
        let bytes = self.as_str().as_bytes();
        encode_list(bytes, out)?;
        Ok(())
    }

    #[tactic(auto, unfolding(crate::specs::Combine::text))]
    fn decode(alloc: Global, reader: &mut ByteReader<'_>) -> Result<Text, SnapFault> {
        let bytes: Rows<u8> = Spelled::decode(alloc, reader)?;
        match str::from_utf8(bytes.items()) {
            Ok(text) => Ok(Text::of(alloc, text)?),
            Err(_) => Err(SnapFault::Bad),
        }
    }
}
