//! The boards of a saved laboratory are made, and get their memories.
ghost use Rattle.std.specs.Prelude.{◌≡◌, ◌++◌, ◌∷◌, ◌<◌, [], false, length, map, IfOk, IsTrue, None, OnErr, OnOk};
ghost use Rattle.board.specs.New.{new_board};
ghost use Rattle.lab_num.specs.Name.{is_name};
ghost use Rattle.lab_state.specs.Names.{is_taken};
ghost use Rattle.lab_state.specs.One.{fitted, view_of};
ghost use Rattle.sys_bus.specs.Plan.{IsValid};
ghost use Rattle.lab_snap.specs.Inner.Building.{made_board, made_boards, state_in, with_boards, with_memories};
ghost use Rattle.lab_snap.specs.Inner.Building.{CanBeAdded};

use crate::lab::SavedBoard;
use board::BoardState;
use dev_core::Device;
use lab_num::{BoardNo, NoMemory, Rows};
use lab_state::{AddFault, FitFault, Lab};
use page_ram::PageRam;
use std::alloc::Global;
use sys_bus::BoardPlan;

/// Adds a board without a plan, of a name that is free.
fn add_bare<D: Device>(lab: &mut Lab<D>, name: &str) -> Result<BoardNo, NoMemory>
    requires unspent { lab.old.spent ≡ false }
    requires is_name { IsTrue (is_name name.now) }
    requires few { length lab.old.lab.boards < 16 }
    requires free { is_taken lab.old.lab name.now ≡ false }
    ensures number { IfOk result (λ board. board.0 ≡ length lab.old.lab.boards) }
    ensures ok { OnOk result (lab.new ≡ with_boards lab.old
        (lab.old.lab.boards ++ record { name = name.now; view = None } ∷ [])) }
    ensures err { OnErr result (lab.new ≡ lab.old) }
{
    match lab.add_board(name) {
        Ok(board) => Ok(board),
        Err(AddFault::Memory) => Err(NoMemory),
        Err(AddFault::Taken | AddFault::Boards) => unreachable!(),
    }
}

/// Makes a board by its plan.
fn fit_plan<D: Device>(lab: &mut Lab<D>, b: BoardNo, plan: BoardPlan) -> Result<(), NoMemory>
    requires unspent { lab.old.spent ≡ false }
    requires exists { b.0 < length lab.old.lab.boards }
    requires bare { view_of lab.old.lab b.0 ≡ None }
    requires plan { IsValid plan }
    ensures ok { OnOk result (lab.new ≡ record lab.old { lab = fitted lab.old.lab b.0 (new_board b.0 plan) }) }
    ensures err { OnErr result (lab.new ≡ lab.old) }
{
    match lab.fit(b, plan) {
        Ok(()) => Ok(()),
        Err(FitFault::Memory) => Err(NoMemory),
        Err(FitFault::Has) => unreachable!(),
    }
}

/// Makes a board by its plan, with these memories.
fn make<D: Device>(
    lab: &mut Lab<D>,
    b: BoardNo,
    plan: BoardPlan,
    memories: Rows<PageRam>,
) -> Result<(), NoMemory>
    requires unspent { lab.old.spent ≡ false }
    requires exists { b.0 < length lab.old.lab.boards }
    requires bare { view_of lab.old.lab b.0 ≡ None }
    requires plan { IsValid plan }
    requires sizes { map length memories ≡ plan.memories }
    ensures ok { OnOk result (lab.new ≡ record lab.old {
      lab = fitted lab.old.lab b.0 (with_memories (new_board b.0 plan) memories);
    }) }
    ensures unspent { lab.new.spent ≡ false }
{
    fit_plan(lab, b, plan)?;
    let mut part = 0;
    for memory in memories.into_items() {
        lab.put_memory(b, part, memory);
        part += 1;
    }
    Ok(())
}

/// Makes one board more, and gives the state to which it is to be brought.
fn add_board<D: Device>(lab: &mut Lab<D>, board: SavedBoard) -> Result<Option<BoardState>, NoMemory>
    requires unspent { lab.old.spent ≡ false }
    requires is_name { IsTrue (is_name board.name) }
    requires few { length lab.old.lab.boards < 16 }
    requires free { is_taken lab.old.lab board.name ≡ false }
    ensures state { IfOk result (λ state. state ≡ state_in board) }
    ensures ok { OnOk result (lab.new ≡ with_boards lab.old
        (lab.old.lab.boards ++ made_board (length lab.old.lab.boards) board ∷ [])) }
    ensures unspent { lab.new.spent ≡ false }
{
    let SavedBoard { name, machine } = board;
    let number = add_bare(lab, name.as_str())?;
    let Some(machine) = machine else {
        return Ok(None);
    };
    let (plan, state, memories) = machine.into_parts();
    make(lab, number, plan, memories)?;
    Ok(Some(state))
}

/// Makes all boards, and gives the states to which they are to be brought.
pub(super) fn add_boards<D: Device>(
    alloc: Global,
    lab: &mut Lab<D>,
    boards: Rows<SavedBoard>,
) -> Result<Vec<Option<BoardState>>, NoMemory>
    requires unspent { lab.old.spent ≡ false }
    requires no_board { lab.old.lab.boards ≡ [] }
    requires no_hub { lab.old.lab.hubs ≡ [] }
    requires can { CanBeAdded boards }
    ensures states { IfOk result (λ states. states.items ≡ map state_in boards) }
    ensures ok { OnOk result (lab.new ≡ with_boards lab.old (made_boards 0 boards)) }
    ensures unspent { lab.new.spent ≡ false }
{
    let mut states = Vec::new(alloc);
    for board in boards.into_items() {
        states.push(add_board(lab, board)?)?;
    }
    Ok(states)
}
