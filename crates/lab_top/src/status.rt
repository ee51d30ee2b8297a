//! How a run of the program ends.
ghost use Rattle.std.specs.Prelude.{◌≡◌};
ghost use Rattle.lab_top.specs.Headline.{exit_number};

use lab_arguments::UsageCause;
use lab_io::WriteFault;
use lab_num::NoMemory;
use monitor::ScriptFault;

/// How a run of the program ends.
#[derive(Drop)]
pub enum Status {
    /// All was done and written.
    Done,
    /// Memory ran out.
    Memory,
    /// The command words were refused.
    Usage(UsageCause),
    /// The script was refused.
    Script(ScriptFault),
    /// A file could not be read.
    Unread,
    /// The output could not be written.
    Unwritten,
    /// A snapshot could not be kept, or not be taken back.
    Unstored,
}

impl Status {
    ghost use Rattle.lab_top.specs.Headline.{number_of};

    /// The number with which the program ends.
    pub fn number(&self) -> u8
        ensures { result ≡ number_of self.now }
    {
        match self {
            Status::Done => 0,
            Status::Memory => 1,
            Status::Usage(_) => 2,
            Status::Script(_) => 3,
            Status::Unread => 4,
            Status::Unwritten => 5,
            Status::Unstored => 6,
        }
    }
}

/// The exit code of the program: the number of the status with which its run has ended, or 1 where no
/// memory was found for its words or its devices, and it was not run.
pub fn exit_code(ended: &Result<Status, NoMemory>) -> u8
    ensures { result ≡ exit_number ended.now }
{
    match ended {
        Ok(status) => status.number(),
        Err(NoMemory) => 1,
    }
}

impl From<WriteFault> for Status {
    ghost use Rattle.std.specs.Prelude.{◌≡◌};
    ghost use Rattle.lab_top.specs.Headline.{refusal};

    ghost from_gives = { λ fault status. status ≡ refusal fault };

    fn from(fault: WriteFault) -> Status {
        match fault {
            WriteFault::Unwritten => Status::Unwritten,
            WriteFault::Memory => Status::Memory,
        }
    }
}
