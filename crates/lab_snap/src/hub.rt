//! Hubs as a snapshot holds them.
ghost use Rattle.std.specs.Prelude.{◌↔◌, IsTrue};
ghost use Rattle.lab_snap.specs.Hub.{IsHub};

use dev_core::Kind;
use lab_encoding::{ByteReader, SnapFault, Spelled};
use lab_num::{MOST_DELAY, Member, NoMemory, Rows, Text, is_name};
use std::alloc::Global;

/// A hub as a snapshot holds it.
#[derive(Drop)]
pub struct SavedHub {
    /// The kind of devices that it connects.
    pub kind: Kind,
    pub name: Text,
    /// In microseconds.
    pub delay: u32,
    /// In order of connection.
    pub members: Rows<Member>,
}

impl SavedHub {
    /// Whether the hub can stand in a laboratory: its devices join hubs, it has a name, and no longer
    /// delay than a second.
    pub fn is_valid(&self) -> bool
        ensures { IsTrue result ↔ IsHub self.now }
    {
        self.kind.joins_hubs() && is_name(self.name.as_str()) && self.delay <= MOST_DELAY
    }
}

impl Spelled for SavedHub {
    ghost use Rattle.lab_snap.specs.Hub.{hub_form, hub_lawful};

    ghost form = { hub_form };

    ghost lawful = { hub_lawful };

    #[tactic(auto, unfolding(crate::specs::Hub::hub_form))]
    fn encode(&self, out: &mut Vec<u8>) -> Result<(), NoMemory> {
        self.kind.encode(out)?;
        self.name.encode(out)?;
        self.delay.encode(out)?;
        self.members.encode(out)?;
        Ok(())
    }

    #[tactic(auto, unfolding(crate::specs::Hub::hub_form))]
    fn decode(alloc: Global, reader: &mut ByteReader<'_>) -> Result<SavedHub, SnapFault> {
        Ok(SavedHub {
            kind: Spelled::decode(alloc, reader)?,
            name: Spelled::decode(alloc, reader)?,
            delay: Spelled::decode(alloc, reader)?,
            members: Spelled::decode(alloc, reader)?,
        })
    }
}
