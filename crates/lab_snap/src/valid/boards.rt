//! The boards of a laboratory.
ghost use Rattle.std.specs.Prelude.{◌≡◌, ◌↔◌, IsTrue};
ghost use Rattle.std.specs.Option.{option_map};
ghost use Rattle.lab_snap.specs.Inner.Parts.{AreBoards, IsBoardAt, IsMachineAt};
ghost use Rattle.lab_snap.specs.Inner.Parts as parts;

use crate::lab::SavedBoard;
use crate::machine::SavedMachine;
use board::state_fits;
use dev_core::Kind;
use lab_num::{BoardNo, MOST_BOARDS, Member, Micros, is_name};

/// The most posts, and the most log entries, of a board in a microsecond.
const MOST_MADE: u64 = 1000;

/// Whether a board can have made so many posts, or so many entries, by this time.
fn is_count(time: Micros, count: u64) -> bool
    ensures { result ≡ parts.is_count time.0 count }
{
    count <= time.0.saturating_mul(MOST_MADE)
}

/// Whether the machine can stand in its state at this time.
fn is_machine(time: Micros, machine: &SavedMachine) -> bool
    ensures { IsTrue result ↔ IsMachineAt time.0 machine.now }
{
    machine.validity_law();
    let state = machine.state();
    state_fits(machine.plan(), state)
        && is_count(time, state.posted)
        && is_count(time, state.entries)
}

/// Whether the board has a name, and a machine that can stand at this time if it has one.
fn is_board(time: Micros, board: &SavedBoard) -> bool
    ensures { IsTrue result ↔ IsBoardAt time.0 board.now }
{
    if !is_name(board.name.as_str()) {
        return false;
    }
    match &board.machine {
        Some(machine) => is_machine(time, machine),
        None => true,
    }
}

/// Whether the boards can stand at this time, their names aside.
pub fn are_boards(time: Micros, boards: &[SavedBoard]) -> bool
    ensures { IsTrue result ↔ AreBoards time.0 boards.now }
{
    boards.len() <= usize::from(MOST_BOARDS) && boards.iter().all(|board| is_board(time, board))
}

/// The machine under a board, if the board is there and has a plan.
pub fn machine_at(boards: &[SavedBoard], b: BoardNo) -> Option<&SavedMachine>
    ensures { option_map (λ machine. machine.now) result ≡ parts.machine_at boards.now b.0 }
{
    boards.get(b.0 as usize)?.machine.as_ref()
}

/// The kind of a device, if its board has a plan and the device is one of it.
pub fn kind_in(boards: &[SavedBoard], member: Member) -> Option<Kind>
    ensures { result ≡ parts.kind_in boards.now member }
{
    let machine = machine_at(boards, member.board)?;
    machine
        .plan()
        .kinds
        .items()
        .get(member.dev as usize)
        .copied()
}
