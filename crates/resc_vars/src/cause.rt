//! The causes for which a script is refused.
ghost use Rattle.std.specs.Prelude.{◌≡◌};
ghost use Rattle.resc_vars.specs.Cause.{script_cause_text};

use std::fmt;

/// Why a line of a script is refused, in the order of their codes.
#[derive(Clone, Copy)]
pub enum ScriptCause {
    /// S1: the first words of the line are no command's.
    Unknown,
    /// S2: the number, the sort or the range of the other words is wrong.
    Arguments,
    /// S3: a variable is unset, or there is no macro of that name.
    Variable,
    /// S4: there is no board.
    NoBoard,
    /// S5: there is no such board.
    Board,
    /// S6: a board or a hub has that name.
    Taken,
    /// S7: there is no such processor, device or hub.
    Name,
    /// S8: the entry is of another kind.
    Kind,
    /// S9: the device is in a hub.
    Connected,
    /// S10: a time is of no form or above 10,000 seconds, a quantum is not 1 to 1,000,000
    /// microseconds, or a delay is above 1,000,000 microseconds.
    Time,
    /// S11: 8 bodies are open beside the script, or 64 platform files were read.
    Depth,
    /// S12: 100,000 commands were taken before.
    Commands,
    /// S13: there are 16 boards.
    Boards,
    /// S14: the run would end above 10,000 seconds of lab time.
    LabTime,
    /// S15: a board has no platform, or has one already.
    Platform,
    /// S16: a word or a byte is not in memory, or an address is not divisible by 4.
    Address,
    /// S17: the body of a macro does not end in its file.
    Unclosed,
    /// S18: a script or a platform file is not UTF-8.
    Utf8,
    /// S19: a file has more than 16 MiB, or a snapshot more than 64 MiB.
    Size,
    /// S20: the bytes of a snapshot are the spelling of no laboratory.
    Snapshot,
    /// S21: `Load` finds a board, a hub, or a time other than 0.
    Occupied,
}

impl ScriptCause {
    /// The code and the text of the cause, as a refusal says them.
    pub fn text(self) -> &'static str
        ensures { result.now ≡ script_cause_text self }
    {
        match self {
            ScriptCause::Unknown => "S1 unknown command",
            ScriptCause::Arguments => "S2 arguments",
            ScriptCause::Variable => "S3 variable",
            ScriptCause::NoBoard => "S4 no board",
            ScriptCause::Board => "S5 board",
            ScriptCause::Taken => "S6 taken",
            ScriptCause::Name => "S7 name",
            ScriptCause::Kind => "S8 kind",
            ScriptCause::Connected => "S9 connected",
            ScriptCause::Time => "S10 time",
            ScriptCause::Depth => "S11 depth",
            ScriptCause::Commands => "S12 commands",
            ScriptCause::Boards => "S13 boards",
            ScriptCause::LabTime => "S14 lab time",
            ScriptCause::Platform => "S15 platform",
            ScriptCause::Address => "S16 address",
            ScriptCause::Unclosed => "S17 unclosed",
            ScriptCause::Utf8 => "S18 not utf-8",
            ScriptCause::Size => "S19 size",
            ScriptCause::Snapshot => "S20 snapshot",
            ScriptCause::Occupied => "S21 occupied",
        }
    }
}

impl fmt::Display for ScriptCause {
    ghost use Rattle.std.specs.Prelude.{Some};
    ghost use Rattle.resc_vars.specs.Cause.{script_cause_text};

    ghost output = { λ cause. Some (script_cause_text cause) };

    fn fmt<W: fmt::Write>(&self, f: &mut fmt::Formatter<W>) -> fmt::Result {
        let text = self.text();
        write!(f, "{text}")
    }
}
