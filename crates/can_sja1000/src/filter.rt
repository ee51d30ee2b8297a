//! The acceptance filter (SJA1000 data sheet, section 6.3.9).
ghost use Rattle.std.specs.Prelude.{◌≡◌, ◌<◌};
ghost use Rattle.dev_core.specs.Can.{is_accepted};

/// Whether the upper eight bits of the identifier are those of the code, where the mask has a 0.
pub fn is_accepted(code: u8, mask: u8, id: u16) -> bool
    requires { id < 2048 }
    ensures { result ≡ is_accepted code mask id }
{
    let upper = (id >> 3) as u8;
    (upper ^ code) & !mask == 0
}
