//! Whether what a snapshot holds is a laboratory that can go on.
ghost use Rattle.std.specs.Prelude.{◌↔◌, IfOk, IsTrue};
ghost use Rattle.lab_state.specs.Valid.{IsValid};
ghost use Rattle.lab_snap.specs.Loaded.{loaded};
ghost use Rattle.lab_snap.specs.Inner.Parts.{AreTimes, FitTheirPlans};

mod boards;
mod hubs;
mod lines;
mod names;
mod posts;

use crate::lab::SavedLab;
use boards::are_boards;
use hubs::{are_hubs, delays};
use lab_num::{LAST, MOST_QUANTUM, Micros, NoMemory};
use lines::are_open;
use names::do_names_differ;
use posts::are_waiting;
use std::alloc::Global;

/// Whether a laboratory can stand at the time, with this quantum.
fn are_times(time: Micros, quantum: u64) -> bool
    ensures { IsTrue result ↔ AreTimes time.0 quantum }
{
    time <= LAST && 1 <= quantum && quantum <= MOST_QUANTUM
}

/// Whether there can be such a laboratory, with these open lines, and whether the states of its boards
/// fit their plans: of a state that does not fit, only a part would be loaded.
pub(crate) fn is_valid(alloc: Global, lab: &SavedLab) -> Result<bool, NoMemory>
    ensures { IfOk result (λ valid. IsTrue valid
        ↔ (FitTheirPlans lab.now.boards × IsValid (loaded lab.now) lab.now.lines)) }
{
    if !are_times(lab.time, lab.quantum)
        || !are_boards(lab.time, lab.boards.items())
        || !are_hubs(lab.boards.items(), lab.hubs.items())
    {
        return Ok(false);
    }
    if !do_names_differ(alloc, lab)? {
        return Ok(false);
    }
    match delays(alloc, lab.hubs.items())? {
        Some(delays) => Ok(are_waiting(lab, &delays) && are_open(lab)),
        None => Ok(false),
    }
}
