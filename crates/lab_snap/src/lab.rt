//! A whole laboratory, and its bytes.
ghost use Rattle.std.specs.Prelude.{◌≡◌, ◌++◌, IfOk, List, MatchResult, ℕ};
ghost use Rattle.lab_snap.specs.Lab.{lab_form};

use crate::hub::SavedHub;
use crate::machine::SavedMachine;
use dev_core::Post;
use lab_encoding::{ByteReader, SnapFault, Spelled, load, one_spelling};
use lab_num::{Micros, NoMemory, Rows, Text};
use log_text::OpenLine;
use std::alloc::Global;

/// The bytes that a snapshot begins with.
pub(crate) const MARK: [u8; 8] = *b"LABSNAP1";

/// A board as a snapshot holds it: its name, and the machine under it if it has a plan.
#[derive(Drop)]
pub struct SavedBoard {
    pub name: Text,
    pub machine: Option<SavedMachine>,
}

/// A laboratory and its open lines, as a snapshot holds them.
#[derive(Drop)]
pub struct SavedLab {
    pub time: Micros,
    /// In microseconds.
    pub quantum: u64,
    pub boards: Rows<SavedBoard>,
    /// In order of creation.
    pub hubs: Rows<SavedHub>,
    /// The posts that are not yet due.
    pub pending: Rows<Post>,
    pub lines: Rows<OpenLine>,
}

impl Spelled for SavedBoard {
    ghost use Rattle.lab_snap.specs.Lab.{board_form, board_lawful};

    ghost form = { board_form };

    ghost lawful = { board_lawful };

    #[tactic(auto, unfolding(crate::specs::Lab::board_form))]
    fn encode(&self, out: &mut Vec<u8>) -> Result<(), NoMemory> {
        self.name.encode(out)?;
        self.machine.encode(out)?;
        Ok(())
    }

    #[tactic(auto, unfolding(crate::specs::Lab::board_form))]
    fn decode(alloc: Global, reader: &mut ByteReader<'_>) -> Result<SavedBoard, SnapFault> {
        Ok(SavedBoard {
            name: Spelled::decode(alloc, reader)?,
            machine: Spelled::decode(alloc, reader)?,
        })
    }
}

impl Spelled for SavedLab {
    ghost use Rattle.lab_snap.specs.Lab.{lab_form, lab_lawful};

    ghost form = { lab_form };

    ghost lawful = { lab_lawful };

    #[tactic(auto, unfolding(crate::specs::Lab::lab_form))]
    fn encode(&self, out: &mut Vec<u8>) -> Result<(), NoMemory> {
        out.extend_from_slice(&MARK)?;
        self.time.encode(out)?;
        self.quantum.encode(out)?;
        self.boards.encode(out)?;
        self.hubs.encode(out)?;
        self.pending.encode(out)?;
        self.lines.encode(out)?;
        Ok(())
    }

    #[tactic(auto, unfolding(crate::specs::Lab::lab_form))]
    fn decode(alloc: Global, reader: &mut ByteReader<'_>) -> Result<SavedLab, SnapFault> {
        reader.skip_mark(&MARK)?;
        Ok(SavedLab {
            time: Spelled::decode(alloc, reader)?,
            quantum: Spelled::decode(alloc, reader)?,
            boards: Spelled::decode(alloc, reader)?,
            hubs: Spelled::decode(alloc, reader)?,
            pending: Spelled::decode(alloc, reader)?,
            lines: Spelled::decode(alloc, reader)?,
        })
    }
}

/// The laboratory that the bytes spell, all of them. What is read is spelled so (`found`), and what is
/// spelled so is read, unless memory runs out (`only`): so `Bad` comes only where the bytes are no
/// spelling. Whether the laboratory is one that can be resumed is a test of its own.
pub fn read_lab(alloc: Global, bytes: &[u8]) -> Result<SavedLab, SnapFault>
    ensures found { IfOk result (λ lab. lab_form.Fits lab × (bytes.now ≡ lab_form.spell lab)) }
    ensures only { (lab : SavedLab) → lab_form.Fits lab → bytes.now ≡ lab_form.spell lab →
        MatchResult result (λ read. read ≡ lab) (λ fault. fault ≡ SnapFault.Memory) }
{
    load(alloc, bytes)
}

/// No spelling of a laboratory begins another, and different laboratories have different spellings. This
/// function does nothing when it runs: a proof that needs the law calls it.
pub fn one_lab_spelling()
    ensures { (a b : SavedLab) (x y : List ℕ) → lab_form.Fits a → lab_form.Fits b →
        lab_form.spell a ++ x ≡ lab_form.spell b ++ y → (a ≡ b) × (x ≡ y) }
{
    one_spelling::<SavedLab>();
}
