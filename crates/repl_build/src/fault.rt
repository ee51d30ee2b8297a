//! The first fault.
ghost use Rattle.std.specs.Prelude.{◌≡◌};
ghost use Rattle.repl_build.specs.First.{fault_if, refuse};

use repl_read::{PlatCause, PlatFault};

/// The fault, if there is one.
pub(crate) fn fault_if(fails: bool, file: u32, line: u32, cause: PlatCause) -> Option<PlatFault>
    ensures { result ≡ fault_if fails (PlatFault.At file line cause) }
{
    if fails {
        Some(PlatFault::At { file, line, cause })
    } else {
        None
    }
}

/// Passes where there is no fault.
pub(crate) fn refuse(fault: Option<PlatFault>) -> Result<(), PlatFault>
    ensures { result ≡ refuse fault }
{
    match fault {
        Some(fault) => Err(fault),
        None => Ok(()),
    }
}
