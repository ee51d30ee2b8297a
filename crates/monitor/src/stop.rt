//! Why the monitor does not go on after a command.
ghost use Rattle.std.specs.Prelude.{◌≡◌};
ghost use Rattle.monitor.specs.Inner.Ruling.{IsFileStop, ends_script};

use crate::fault::{Cause, ScriptFault};
use lab_io::ReadFault;
use lab_num::{NoMemory, Text};
use resc_vars::{FlowFault, ScriptCause};
use std::alloc::{AllocError, AllocFailed, Global};

/// What is asked of the store, under a name.
#[derive(Drop)]
pub(crate) enum Storing {
    Save(Text),
    Load(Text),
}

/// Why the monitor does not go on after a command.
#[derive(Drop)]
pub(crate) enum Stop {
    /// The command is for the store, and then the script goes on.
    Store(Storing),
    /// The command ends the script.
    Quit,
    /// The line is refused.
    Line(ScriptCause),
    /// The line is refused for what stands at a place of a file that it names.
    File(ScriptFault),
    /// The line is refused for what stands in the image that it names.
    Content(Cause),
    /// A read failed, and the files counted it.
    Unread,
    /// Memory ran out.
    Memory,
}

impl Stop {
    /// Whether the script ends.
    pub(crate) fn ends_script(&self) -> bool
        ensures { result ≡ ends_script self.now }
    {
        !matches!(self, Stop::Store(_))
    }
}

impl From<ScriptCause> for Stop {
    ghost use Rattle.std.specs.Prelude.{◌≡◌};
    ghost use Rattle.monitor.specs.declared.stop.Stop.TheVariants.{Line};

    ghost from_gives = { λ cause stop. stop ≡ Line cause };

    fn from(cause: ScriptCause) -> Stop {
        Stop::Line(cause)
    }
}

impl From<NoMemory> for Stop {
    ghost use Rattle.std.specs.Prelude.{◌≡◌};
    ghost use Rattle.monitor.specs.declared.stop.Stop.TheVariants.{Memory};

    ghost from_gives = { λ _ stop. stop ≡ Memory };

    fn from(_error: NoMemory) -> Stop {
        Stop::Memory
    }
}

impl From<AllocError> for Stop {
    ghost use Rattle.std.specs.Prelude.{◌≡◌};
    ghost use Rattle.monitor.specs.declared.stop.Stop.TheVariants.{Memory};

    ghost from_gives = { λ _ stop. stop ≡ Memory };

    fn from(_error: AllocError) -> Stop {
        Stop::Memory
    }
}

impl<T: Drop> From<AllocFailed<T>> for Stop {
    ghost use Rattle.std.specs.Prelude.{◌≡◌};
    ghost use Rattle.monitor.specs.declared.stop.Stop.TheVariants.{Memory};

    ghost from_gives = { λ _ stop. stop ≡ Memory };

    fn from(_error: AllocFailed<T>) -> Stop {
        Stop::Memory
    }
}

impl From<FlowFault> for Stop {
    ghost use Rattle.std.specs.Prelude.{◌≡◌};
    ghost use Rattle.monitor.specs.Inner.Ruling.{flow_stop};

    ghost from_gives = { λ fault stop. stop ≡ flow_stop fault };

    fn from(fault: FlowFault) -> Stop {
        match fault {
            FlowFault::Depth => Stop::Line(ScriptCause::Depth),
            FlowFault::Variable => Stop::Line(ScriptCause::Variable),
            FlowFault::Memory => Stop::Memory,
        }
    }
}

impl From<ReadFault> for Stop {
    ghost use Rattle.std.specs.Prelude.{◌≡◌};
    ghost use Rattle.monitor.specs.Inner.Ruling.{read_stop};

    ghost from_gives = { λ fault stop. stop ≡ read_stop fault };

    fn from(fault: ReadFault) -> Stop {
        match fault {
            ReadFault::Unread => Stop::Unread,
            ReadFault::TooLarge => Stop::Line(ScriptCause::Size),
            ReadFault::Memory => Stop::Memory,
        }
    }
}

/// A line is refused for what stands in a line of a file of this name.
pub(crate) fn file_stop(alloc: Global, name: &str, line: u32, cause: Cause) -> Stop
    ensures { IsFileStop (record { file = name.now; line = line; cause = cause }) result }
{
    match Text::of(alloc, name) {
        Ok(file) => Stop::File(ScriptFault { file, line, cause }),
        Err(_) => Stop::Memory,
    }
}
