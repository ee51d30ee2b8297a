//! What the words ask for, and why there is no request.
use lab_num::{Micros, NoMemory, Text};

/// What the words ask for.
#[derive(Drop)]
pub enum Request {
    /// `run SCRIPT [--workers N] [--until TIME]`: take the commands of a script. One that has no
    /// length of its own runs the boards up to lab time `until`, which is one second if not given.
    Run {
        script: Text,
        workers: u8,
        until: Micros,
    },
    /// `check SCRIPT`: take the commands of a script, without running a board.
    Check {
        script: Text,
    },
    /// `gen SEED BOARDS [--workers N]`: run the laboratory that is made from the seed.
    Gen {
        seed: u64,
        boards: u8,
        workers: u8,
    },
}

/// Why the words are refused.
#[derive(Clone, Copy, Debug)]
pub enum UsageCause {
    /// There is no word, or the first is not `run`, `check` or `gen`.
    Command,
    /// The words after it are not of its form.
    Words,
    /// They are, and a number or a time is out of its range.
    Value,
}

/// Why there is no request.
#[derive(Clone, Copy)]
pub enum WordsFault {
    /// The words are refused.
    Usage(UsageCause),
    /// Memory ran out.
    Memory,
}

impl From<UsageCause> for WordsFault {
    ghost use Rattle.std.specs.Prelude.{◌≡◌};
    ghost use Rattle.lab_arguments.specs.declared.request.WordsFault.TheVariants.{Usage};

    ghost from_gives = { λ cause fault. fault ≡ Usage cause };

    fn from(cause: UsageCause) -> WordsFault {
        WordsFault::Usage(cause)
    }
}

impl From<NoMemory> for WordsFault {
    ghost use Rattle.std.specs.Prelude.{◌≡◌};
    ghost use Rattle.lab_arguments.specs.declared.request.WordsFault.TheVariants.{Memory};

    ghost from_gives = { λ _ fault. fault ≡ Memory };

    fn from(_error: NoMemory) -> WordsFault {
        WordsFault::Memory
    }
}
