//! What one step of a script answers.
use crate::fault::ScriptFault;
use lab_num::{Rows, Text as Name};

/// What the next command of a script has done.
#[derive(Drop)]
pub enum Step {
    /// It was carried out, and prints this.
    Text(Rows<u8>),
    /// The laboratory and its open lines are to be kept under this name, by the command in this line of
    /// this file, counted from 1. Nothing else is changed.
    Save { name: Name, file: Name, line: u32 },
    /// They are to be taken back from this name, by the command in this line of this file, counted from
    /// 1. Nothing else is changed.
    Load { name: Name, file: Name, line: u32 },
    /// There is no further line, or the script was ended by `quit`.
    End,
    /// It was refused, and has changed nothing in the laboratory.
    Fault(ScriptFault),
    /// A read failed, and the files counted it.
    Unread,
    /// Memory ran out.
    Memory,
}
