//! The bits of a register.
ghost use Rattle.std.specs.Prelude.{◌≡◌, ◌<◌};
ghost use Rattle.dev_core.specs.Bit.{is_set};

/// Whether a bit is 1, counted from 0 at the lowest.
pub fn is_set(byte: u8, bit: u32) -> bool
    requires { bit < 8 }
    ensures { result ≡ is_set byte bit }
{
    (byte >> bit) & 1 == 1
}
