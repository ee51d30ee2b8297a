//! The lines that stand open in a laboratory.
ghost use Rattle.std.specs.Prelude.{◌≡◌, ◌↔◌, IsTrue};
ghost use Rattle.lab_snap.specs.Inner.Parts.{AreOpenIn};
ghost use Rattle.lab_snap.specs.Inner.Parts as parts;

use super::boards::machine_at;
use crate::lab::SavedLab;
use crate::machine::SavedMachine;
use dev_core::{DevState, Kind};
use log_text::{OpenLine, are_unended};

fn is_uart(state: &DevState) -> bool
    ensures { result ≡ parts.is_uart state.now }
{
    state.kind() == Kind::Uart
}

/// Whether a device of the machine is a UART which is shown.
fn is_shown_uart(machine: &SavedMachine, dev: usize) -> bool
    ensures { result ≡ parts.is_shown_uart machine.now dev }
{
    let state = machine.state();
    match (state.devices.items().get(dev), state.shown.items().get(dev)) {
        (Some(device), Some(shown)) => *shown && is_uart(device),
        _ => false,
    }
}

/// Whether the line can stand open in the laboratory, alone.
fn is_open(lab: &SavedLab, line: &OpenLine) -> bool
    ensures { result ≡ parts.is_open lab.now line.now }
{
    match machine_at(lab.boards.items(), line.member.board) {
        Some(machine) => {
            line.at.0 < lab.time.0 && is_shown_uart(machine, line.member.dev as usize)
        }
        None => false,
    }
}

/// Whether the lines can stand open together in the laboratory.
pub fn are_open(lab: &SavedLab) -> bool
    ensures { IsTrue result ↔ AreOpenIn lab.now }
{
    let lines = lab.lines.items();
    are_unended(lines) && lines.iter().all(|line| is_open(lab, line))
}
