//! The interrupt register (SJA1000 data sheet, section 6.3.6).
ghost use Rattle.std.specs.Prelude.{◌≡◌};
ghost use Rattle.dev_core.specs.Can.{ir, can_line};

use dev_core::CanState;

/// The interrupt register: RI, TI and DOI at bits 0, 1 and 3.
pub fn interrupts(can: &CanState) -> u8
    ensures { result ≡ ir can.now }
{
    u8::from(can.ri) + (u8::from(can.ti) << 1) + (u8::from(can.doi) << 3)
}

/// Whether some interrupt is there.
pub fn is_pending(can: &CanState) -> bool
    ensures { result ≡ can_line can.now }
{
    interrupts(can) != 0
}
