//! A laboratory and its open lines, saved as bytes.
ghost use Rattle.std.specs.Prelude.{◌≡◌, ◌<◌, All, IfOk, IfSome, OnOk, Some, false, length, map, slice_get};
ghost use Rattle.std.specs.Option.{option_map};
ghost use Rattle.board.specs.BoardState.{board_state};
ghost use Rattle.lab_encoding.specs.BoardState.{board_state_form};
ghost use Rattle.lab_encoding.specs.Combine.{each, list, option};
ghost use Rattle.lab_encoding.specs.OpenLines.{open_line_form};
ghost use Rattle.lab_encoding.specs.Posts.{post_form};
ghost use Rattle.lab_encoding.specs.Reads.{Appends};
ghost use Rattle.lab_state.specs.One.{view_of};
ghost use Rattle.lab_state.specs.Valid.{IsValid};
ghost use Rattle.page_ram.specs.Access.{IsRamSize};
ghost use Rattle.lab_snap.specs.Hub.{hub_form};
ghost use Rattle.lab_snap.specs.Lab.{board_form};
ghost use Rattle.lab_snap.specs.MachineForm.{machine_form, memories_form, sized_form};
ghost use Rattle.lab_snap.specs.Saved.{IsSpellable, saved_board, saved_hub, saved_machine, spelling};
ghost use Rattle.lab_snap.specs.Snapshot.{snapshot_of};

use crate::lab::MARK;
use crate::memory::encode_memory;
use crate::snapshot::snapshots_are_what_they_spell;
use board::Board;
use dev_core::Device;
use lab_encoding::{Spelled, encode_list};
use lab_num::{BoardNo, NoMemory};
use lab_state::Lab;
use log_text::Lines;
use page_ram::PAGE_SIZE;
use std::alloc::Global;

/// Writes the memories of a board, which have these sizes, one after another.
fn encode_each_memory<D: Device>(
    board: &Board<D>,
    sizes: &[u32],
    out: &mut Vec<u8>,
) -> Result<(), NoMemory>
    requires whole { All IsRamSize sizes.now }
    requires sizes { map length board.now.view.space.memories ≡ sizes.now }
    requires few { length sizes.now < 256 }
    ensures spelled { OnOk result (Appends out.old.items out.new.items
        ((each sized_form sizes.now).spell board.now.view.space.memories)) }
    ensures fits { OnOk result ((each sized_form sizes.now).Fits board.now.view.space.memories) }
{
    for k in 0..sizes.len() {
        encode_memory(board.memory(k as u8), sizes[k] / PAGE_SIZE, out)?;
    }
    Ok(())
}

/// Writes the list of the memories of a board.
#[tactic(auto, unfolding(crate::specs::MachineForm::memories_form))]
fn encode_memories<D: Device>(
    board: &Board<D>,
    sizes: &[u32],
    out: &mut Vec<u8>,
) -> Result<(), NoMemory>
    requires whole { All IsRamSize sizes.now }
    requires sizes { map length board.now.view.space.memories ≡ sizes.now }
    requires few { length sizes.now < 256 }
    ensures spelled { OnOk result (Appends out.old.items out.new.items
        ((memories_form sizes.now).spell board.now.view.space.memories)) }
    ensures fits { OnOk result ((memories_form sizes.now).Fits board.now.view.space.memories) }
{
    (sizes.len() as u64).encode(out)?;
    encode_each_memory(board, sizes, out)
}

/// Writes what of a board changes, its memories aside.
fn encode_state<D: Device>(board: &Board<D>, out: &mut Vec<u8>) -> Result<(), NoMemory>
    ensures spelled { OnOk result (Appends out.old.items out.new.items
        (board_state_form.spell (board_state board.now.view))) }
    ensures fits { OnOk result (board_state_form.Fits (board_state board.now.view)) }
{
    let state = board.state()?;
    state.encode(out)
}

/// Writes a board that has a plan: the plan, what of the board changes, and its memories.
#[tactic(auto, unfolding(crate::specs::MachineForm::machine_form, crate::specs::MachineForm::valid_plan_form))]
fn encode_machine<D: Device>(board: &Board<D>, out: &mut Vec<u8>) -> Result<(), NoMemory>
    ensures spelled { OnOk result (Appends out.old.items out.new.items
        (machine_form.spell (saved_machine board.now.view))) }
    ensures fits { OnOk result (machine_form.Fits (saved_machine board.now.view)) }
{
    let plan = board.plan();
    plan.encode(out)?;
    encode_state(board, out)?;
    encode_memories(board, plan.memories.items(), out)?;
    Ok(())
}

/// Writes what stands under the name of a board, if anything does.
fn encode_under_name<D: Device>(lab: &Lab<D>, b: BoardNo, out: &mut Vec<u8>) -> Result<(), NoMemory>
    requires unspent { lab.now.spent ≡ false }
    requires exists { b.0 < length lab.now.lab.boards }
    ensures spelled { OnOk result (Appends out.old.items out.new.items
        ((option machine_form).spell (option_map saved_machine (view_of lab.now.lab b.0)))) }
    ensures fits { OnOk result
        ((option machine_form).Fits (option_map saved_machine (view_of lab.now.lab b.0))) }
{
    if !lab.has_plan(b) {
        out.push(0)?;
        return Ok(());
    }
    out.push(1)?;
    encode_machine(lab.board(b), out)
}

/// Writes a board: its name, and what stands under it.
#[tactic(auto, unfolding(crate::specs::Lab::board_form))]
fn encode_board<D: Device>(lab: &Lab<D>, b: BoardNo, out: &mut Vec<u8>) -> Result<(), NoMemory>
    requires unspent { lab.now.spent ≡ false }
    requires exists { b.0 < length lab.now.lab.boards }
    ensures spelled { OnOk result (IfSome (slice_get lab.now.lab.boards b.0) (λ board.
        Appends out.old.items out.new.items (board_form.spell (saved_board board)))) }
    ensures fits { OnOk result (IfSome (slice_get lab.now.lab.boards b.0) (λ board.
        board_form.Fits (saved_board board))) }
{
    lab.board_name(b).encode(out)?;
    encode_under_name(lab, b, out)
}

/// Writes the list of the boards.
fn encode_boards<D: Device>(lab: &Lab<D>, out: &mut Vec<u8>) -> Result<(), NoMemory>
    requires unspent { lab.now.spent ≡ false }
    ensures spelled { OnOk result (Appends out.old.items out.new.items
        ((list board_form).spell (map saved_board lab.now.lab.boards))) }
    ensures fits { OnOk result ((list board_form).Fits (map saved_board lab.now.lab.boards)) }
{
    (lab.boards() as u64).encode(out)?;
    for b in 0..lab.boards() {
        encode_board(lab, BoardNo(b), out)?;
    }
    Ok(())
}

/// Writes a hub: its kind, its name, its delay and its members.
#[tactic(auto, unfolding(crate::specs::Hub::hub_form))]
fn encode_hub<D: Device>(lab: &Lab<D>, n: u32, out: &mut Vec<u8>) -> Result<(), NoMemory>
    requires unspent { lab.now.spent ≡ false }
    requires exists { n < length lab.now.lab.hubs }
    ensures spelled { OnOk result (IfSome (slice_get lab.now.lab.hubs n) (λ hub.
        Appends out.old.items out.new.items (hub_form.spell (saved_hub hub)))) }
    ensures fits { OnOk result (IfSome (slice_get lab.now.lab.hubs n) (λ hub.
        hub_form.Fits (saved_hub hub))) }
{
    lab.hub_kind(n).encode(out)?;
    lab.hub_name(n).encode(out)?;
    (lab.hub_delay(n) as u32).encode(out)?;
    encode_list(lab.hub_members(n), out)?;
    Ok(())
}

/// Writes the list of the hubs.
fn encode_hubs<D: Device>(lab: &Lab<D>, out: &mut Vec<u8>) -> Result<(), NoMemory>
    requires unspent { lab.now.spent ≡ false }
    ensures spelled { OnOk result (Appends out.old.items out.new.items
        ((list hub_form).spell (map saved_hub lab.now.lab.hubs))) }
    ensures fits { OnOk result ((list hub_form).Fits (map saved_hub lab.now.lab.hubs)) }
{
    (lab.hubs() as u64).encode(out)?;
    for n in 0..lab.hubs() {
        encode_hub(lab, n, out)?;
    }
    Ok(())
}

/// Writes the list of the posts that wait.
fn encode_pending<D: Device>(lab: &Lab<D>, out: &mut Vec<u8>) -> Result<(), NoMemory>
    requires { lab.now.spent ≡ false }
    ensures spelled { OnOk result (Appends out.old.items out.new.items
        ((list post_form).spell lab.now.lab.pending)) }
    ensures fits { OnOk result ((list post_form).Fits lab.now.lab.pending) }
{
    encode_list(lab.pending(), out)
}

/// Writes the list of the open lines.
fn encode_lines(lines: &Lines, out: &mut Vec<u8>) -> Result<(), NoMemory>
    ensures spelled { OnOk result (Appends out.old.items out.new.items
        ((list open_line_form).spell lines.now)) }
    ensures fits { OnOk result ((list open_line_form).Fits lines.now) }
{
    encode_list(lines.unended(), out)
}

/// Writes a laboratory and its open lines.
#[tactic(auto, unfolding(crate::specs::Lab::lab_form))]
fn encode_lab<D: Device>(lab: &Lab<D>, lines: &Lines, out: &mut Vec<u8>) -> Result<(), NoMemory>
    requires { lab.now.spent ≡ false }
    ensures spelled { OnOk result
        (Appends out.old.items out.new.items (spelling lab.now.lab lines.now)) }
    ensures fits { OnOk result (IsSpellable lab.now.lab lines.now) }
{
    out.extend_from_slice(&MARK)?;
    lab.now().encode(out)?;
    lab.quantum().encode(out)?;
    encode_boards(lab, out)?;
    encode_hubs(lab, out)?;
    encode_pending(lab, out)?;
    encode_lines(lines, out)?;
    Ok(())
}

/// The one spelling of a laboratory and its open lines, which holds them. `Err` is for want of memory
/// alone.
pub fn save<D: Device>(alloc: Global, lab: &Lab<D>, lines: &Lines) -> Result<Vec<u8>, NoMemory>
    requires unspent { lab.now.spent ≡ false }
    requires valid { IsValid lab.now.lab lines.now }
    ensures spelled { IfOk result (λ bytes. bytes.items ≡ spelling lab.now.lab lines.now) }
    ensures fits { OnOk result (IsSpellable lab.now.lab lines.now) }
    ensures held { IfOk result (λ bytes. snapshot_of bytes.items ≡ Some (lab.now.lab, lines.now)) }
{
    snapshots_are_what_they_spell();
    let mut out = Vec::new(alloc);
    encode_lab(lab, lines, &mut out)?;
    Ok(out)
}
