//! What a command has done whose text goes to an output.
use crate::fault::ScriptFault;
use lab_io::WriteFault;
use lab_num::Text as Name;

/// What the next command of a script has done, where what it prints goes to an output.
#[derive(Drop)]
pub enum Progress {
    /// It was carried out, and what it prints is written.
    Done,
    /// What it prints was written up to where a write failed or memory ran out. The script and the laboratory
    /// have ended.
    Cut(WriteFault),
    /// The laboratory and its open lines are to be kept under this name, by the command in this line of
    /// this file, counted from 1. Nothing else is changed.
    Save { name: Name, file: Name, line: u32 },
    /// They are to be taken back from this name, by the command in this line of this file, counted from
    /// 1. Nothing else is changed.
    Load { name: Name, file: Name, line: u32 },
    /// There is no further line, or the script was ended by `quit`.
    End,
    /// It was refused, and has changed nothing in the laboratory.
    Fault(ScriptFault),
    /// A read failed, and the files counted it.
    Unread,
    /// Memory ran out before anything was written.
    Memory,
}
