//! The optional extensions of a hart.
ghost use Rattle.std.specs.Prelude.{◌≡◌, ◌%◌, ◌==◌};
ghost use Rattle.rv_hart.specs.Core.{alignment};
ghost use Rattle.rv_hart.specs.Csr.{extensions, return_bits};

/// The extensions that a hart has beside the base instructions and M, by their letters in misa.
#[derive(Clone, Copy, PartialEq, Eq)]
pub struct Letters {
    /// Atomic instructions.
    pub a: bool,
    /// Compressed instructions, of two bytes.
    pub c: bool,
}

impl Letters {
    /// Whether an instruction may lie at an address: one that is divisible by 4, or with compressed
    /// instructions by 2.
    pub fn aligns(self, at: u32) -> bool
        ensures { result ≡ (at % alignment self == 0) }
    {
        if self.c { at % 2 == 0 } else { at % 4 == 0 }
    }

    /// What misa reads: 32 bits wide, with the base instructions and M, and these letters.
    pub(crate) fn misa(self) -> u32
        ensures { result ≡ extensions self }
    {
        (1 << 30) + (1 << 8) + (1 << 12) + u32::from(self.a) + (u32::from(self.c) << 2)
    }

    /// The bits that mepc holds.
    pub(crate) fn return_bits(self) -> u32
        ensures { result ≡ return_bits self }
    {
        if self.c { !0b01 } else { !0b11 }
    }
}
