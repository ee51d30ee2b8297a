//! How a script is run.
use lab_num::Micros;

/// How a script is run.
#[derive(Clone, Copy)]
pub struct Setting {
    /// How many workers take the slots of boards, 1 to 8. The number changes nothing that is seen.
    pub workers: u8,
    /// The lab time to which `start` runs.
    pub until: Micros,
    /// Whether each run has length 0, after all its tests.
    pub dry: bool,
}
