//! The state of a PLIC.
ghost use Rattle.std.specs.Prelude.{◌≡◌, ◌≤◌, ◌↔◌, IsTrue};
ghost use Rattle.plic.specs.State.{IsPlicState, plic_reset};

use crate::valid::is_valid;

/// All of a PLIC that changes. What is said of a source stands at the bit or place of its number.
#[derive(Clone, Copy)]
pub struct PlicState {
    /// 0 to 7; a source of priority 0 never interrupts.
    pub priorities: [u8; 128],
    /// The sources that wait to be claimed.
    pub pending: u128,
    /// The sources whose gateways are shut: from a request until it is completed.
    pub shut: u128,
    /// The sources that each context takes.
    pub enables: [u128; 15],
    /// 0 to 7; only greater priorities interrupt the context.
    pub thresholds: [u8; 15],
}

impl PlicState {
    /// The state after a reset.
    pub fn reset() -> PlicState
        ensures { result ≡ plic_reset }
    {
        PlicState {
            priorities: [0; 128],
            pending: 0,
            shut: 0,
            enables: [0; 15],
            thresholds: [0; 15],
        }
    }

    /// Whether a PLIC of so many sources and contexts can have this state. `Plic::put` asks it.
    pub fn fits(&self, sources: u8, contexts: u8) -> bool
        requires sources { sources ≤ 127 }
        requires contexts { contexts ≤ 15 }
        ensures { IsTrue result ↔ IsPlicState sources contexts self.now }
    {
        is_valid(self, u32::from(sources), usize::from(contexts))
    }
}
