//! What a script's flow answers.
use crate::cause::ScriptCause;
use lab_num::{NoMemory, Text};

/// The next line of a script.
#[derive(Drop)]
pub enum Next {
    /// A line with a command, whose variables are replaced, and where it stands: the name of its
    /// file and its line, counted from 1.
    Line {
        file: Text,
        line: u32,
        text: Text,
    },
    /// All bodies have ended.
    End,
    /// A line is refused: a variable is unset, too many commands were taken, or a macro has no end.
    Fault {
        file: Text,
        line: u32,
        cause: ScriptCause,
    },
    /// Memory ran out.
    Memory,
}

/// Why a body is not opened.
#[derive(Clone, Copy)]
pub enum FlowFault {
    /// 8 bodies are open beside the script.
    Depth,
    /// There is no macro of that name.
    Variable,
    /// Memory ran out.
    Memory,
}

impl From<NoMemory> for FlowFault {
    ghost use Rattle.std.specs.Prelude.{◌≡◌};
    ghost use Rattle.resc_vars.specs.declared.answer.FlowFault.TheVariants.{Memory};

    ghost from_gives = { λ _ fault. fault ≡ Memory };

    fn from(_error: NoMemory) -> FlowFault {
        FlowFault::Memory
    }
}
