//! The state of a CLINT.
ghost use Rattle.std.specs.Prelude.{◌≡◌};
ghost use Rattle.clint.specs.Clint.{clint_reset};

/// All of a CLINT that changes.
#[derive(Clone, Copy, PartialEq, Eq)]
pub struct ClintState {
    /// The software interrupt is requested.
    pub msip: bool,
    /// The timer interrupt is requested from this value of `mtime` on.
    pub mtimecmp: u64,
    /// What `mtime` showed at lab time 0, or would have shown with no store since.
    pub offset: u64,
}

impl ClintState {
    /// The state after a reset.
    pub fn reset() -> ClintState
        ensures { result ≡ clint_reset }
    {
        ClintState {
            msip: false,
            mtimecmp: u64::MAX,
            offset: 0,
        }
    }
}
