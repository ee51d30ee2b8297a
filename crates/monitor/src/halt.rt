//! Why the monitor does not go on after a command whose text goes to an output.
use crate::stop::Stop;
use lab_io::WriteFault;
use lab_state::RunCause;
use resc_read::LineFault;

/// Why the monitor does not go on after a command whose text goes to an output.
#[derive(Drop)]
pub(crate) enum Halt {
    /// The command stops it, and nothing is written.
    Stop(Stop),
    /// What the command prints was written up to where a write failed or memory ran out.
    Cut(WriteFault),
}

impl From<LineFault> for Halt {
    ghost use Rattle.std.specs.Prelude.{◌≡◌};
    ghost use Rattle.monitor.specs.Inner.Ruling.{line_stop};
    ghost use Rattle.monitor.specs.declared.halt.Halt.TheVariants as halt;

    ghost from_gives = { λ fault given. given ≡ halt.Stop (line_stop fault) };

    fn from(fault: LineFault) -> Halt {
        Halt::Stop(Stop::from(fault))
    }
}

impl From<RunCause> for Halt {
    ghost use Rattle.std.specs.Prelude.{◌≡◌};
    ghost use Rattle.monitor.specs.Inner.Ruling.{may_stop};
    ghost use Rattle.monitor.specs.declared.halt.Halt.TheVariants as halt;

    ghost from_gives = { λ cause given. given ≡ halt.Stop (may_stop cause) };

    fn from(cause: RunCause) -> Halt {
        Halt::Stop(Stop::from(cause))
    }
}
