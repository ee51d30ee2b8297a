//! A laboratory is made again of its bytes.
ghost use Rattle.std.specs.Prelude.{◌≡◌, [], false, true, IfOk, List, MatchResult, None, OnOk, Some};
ghost use Rattle.log_text.specs.declared.line.OpenLine.{OpenLine as Line};
ghost use Rattle.lab_state.specs.Lab.{Lab as Laboratory};
ghost use Rattle.lab_state.specs.Valid.{IsLab, IsValid};
ghost use Rattle.lab_snap.specs.declared.lab.SavedLab.{SavedLab as Snapshot};
ghost use Rattle.lab_snap.specs.Inner.Parts.{FitTheirPlans};
ghost use Rattle.lab_snap.specs.Lab.{lab_form};
ghost use Rattle.lab_snap.specs.Loaded.{loaded};
ghost use Rattle.lab_snap.specs.Saved.{saved, spelling, IsSpellable};
ghost use Rattle.lab_snap.specs.Snapshot.{snapshot_of};

mod boards;
mod hubs;

use crate::lab::{SavedLab, read_lab};
use crate::snapshot::snapshots_are_what_they_spell;
use crate::valid::is_valid;
use board::laws;
use dev_core::Device;
use lab_encoding::SnapFault;
use lab_num::NoMemory;
use lab_state::Lab;
use log_text::{Lines, OpenLine};
use std::alloc::Global;

/// The valid laboratory that the bytes spell, all of them.
fn read_valid(alloc: Global, bytes: &[u8]) -> Result<SavedLab, SnapFault>
    ensures found { IfOk result (λ s. lab_form.Fits s × (bytes.now ≡ lab_form.spell s)
        × FitTheirPlans s.boards × IsValid (loaded s) s.lines) }
    ensures only { (s : Snapshot) → lab_form.Fits s → bytes.now ≡ lab_form.spell s →
        FitTheirPlans s.boards → IsValid (loaded s) s.lines →
        MatchResult result (λ read. read ≡ s) (λ fault. fault ≡ SnapFault.Memory) }
{
    let saved = read_lab(alloc, bytes)?;
    if !is_valid(alloc, &saved)? {
        return Err(SnapFault::Bad);
    }
    Ok(saved)
}

/// Nothing waits in a laboratory in which no time has passed. Nothing is changed and told when this runs.
fn nothing_pending_law<D: Device>(lab: &Lab<D>)
    requires unspent { lab.now.spent ≡ false }
    requires new { lab.now.lab.now ≡ 0 }
    ensures { lab.now.lab.pending ≡ [] }
{
    let _pending = lab.pending();
}

/// Makes a saved laboratory in one in which nothing was made, and gives its open lines. After an `Err` a
/// part of it is made.
fn build<D: Device>(
    alloc: Global,
    lab: &mut Lab<D>,
    saved: SavedLab,
) -> Result<Vec<OpenLine>, NoMemory>
    requires unspent { lab.old.spent ≡ false }
    requires no_board { lab.old.lab.boards ≡ [] }
    requires no_hub { lab.old.lab.hubs ≡ [] }
    requires new { lab.old.lab.now ≡ 0 }
    requires fit { FitTheirPlans saved.boards }
    requires valid { IsLab (loaded saved) }
    ensures lab { OnOk result (lab.new ≡ record { lab = loaded saved; spent = false }) }
    ensures lines { IfOk result (λ lines. lines.items ≡ saved.lines) }
    ensures unspent { lab.new.spent ≡ false }
{
    nothing_pending_law(lab);
    let SavedLab {
        time,
        quantum,
        boards,
        hubs,
        pending,
        lines,
    } = saved;
    let states = boards::add_boards(alloc, lab, boards)?;
    hubs::create_hubs(lab, hubs.items())?;
    lab.set_quantum(quantum);
    lab.resume(time, &states, pending.into_items());
    Ok(lines.into_items())
}

/// A laboratory that is saved and loaded is itself: a proof that needs this calls it.
pub(crate) fn saving_agrees()
    ensures loaded { (l : Laboratory) (ls : List Line) → IsLab l → loaded (saved l ls) ≡ l }
    ensures fit { (l : Laboratory) (ls : List Line) → IsLab l → FitTheirPlans (saved l ls).boards }
    ensures saved { (s : Snapshot) → FitTheirPlans s.boards → saved (loaded s) s.lines ≡ s }
{
    laws::states_are_put_back();
}

/// Loads as `load` does, but leaves a laboratory unspent for which memory ran out, with a part of what
/// was to be loaded.
fn load_or_part<D: Device>(
    alloc: Global,
    lab: &mut Lab<D>,
    lines: &mut Lines,
    bytes: &[u8],
) -> Result<(), SnapFault>
    requires unspent { lab.old.spent ≡ false }
    requires no_board { lab.old.lab.boards ≡ [] }
    requires no_hub { lab.old.lab.hubs ≡ [] }
    requires new { lab.old.lab.now ≡ 0 }
    ensures found { OnOk result ((lab.new.spent ≡ false) × IsValid lab.new.lab lines.new
        × IsSpellable lab.new.lab lines.new × (bytes.now ≡ spelling lab.new.lab lines.new)) }
    ensures only { (l : Laboratory) (ls : List Line) → IsValid l ls → IsSpellable l ls →
        bytes.now ≡ spelling l ls →
        MatchResult result (λ _. (lab.new ≡ record { lab = l; spent = false }) × (lines.new ≡ ls))
        (λ fault. fault ≡ SnapFault.Memory) }
    ensures bad { result ≡ Err SnapFault.Bad → (lab.new ≡ lab.old) × (lines.new ≡ lines.old) }
    ensures unspent { lab.new.spent ≡ false }
{
    saving_agrees();
    let saved = read_valid(alloc, bytes)?;
    let list = build(alloc, lab, saved)?;
    *lines = Lines::of(list).unwrap();
    Ok(())
}

/// Loads what the bytes spell, all of them, into a laboratory in which nothing was made. What is loaded
/// is valid and spelled so (`found`), and what is valid and spelled so is loaded, unless memory runs out
/// (`only`): so what is loaded is what the bytes hold (`held`), and `Bad` comes only where they hold
/// nothing (`refused`). `Bad` changes nothing, and `Memory` leaves the laboratory spent.
pub fn load<D: Device>(
    alloc: Global,
    lab: &mut Lab<D>,
    lines: &mut Lines,
    bytes: &[u8],
) -> Result<(), SnapFault>
    requires unspent { lab.old.spent ≡ false }
    requires no_board { lab.old.lab.boards ≡ [] }
    requires no_hub { lab.old.lab.hubs ≡ [] }
    requires new { lab.old.lab.now ≡ 0 }
    requires none { lines.old ≡ [] }
    ensures found { OnOk result ((lab.new.spent ≡ false) × IsValid lab.new.lab lines.new
        × IsSpellable lab.new.lab lines.new × (bytes.now ≡ spelling lab.new.lab lines.new)) }
    ensures only { (l : Laboratory) (ls : List Line) → IsValid l ls → IsSpellable l ls →
        bytes.now ≡ spelling l ls →
        MatchResult result (λ _. (lab.new ≡ record { lab = l; spent = false }) × (lines.new ≡ ls))
        (λ fault. fault ≡ SnapFault.Memory) }
    ensures held { OnOk result (snapshot_of bytes.now ≡ Some (lab.new.lab, lines.new)) }
    ensures refused { result ≡ Err SnapFault.Bad → snapshot_of bytes.now ≡ None }
    ensures bad { result ≡ Err SnapFault.Bad → (lab.new ≡ lab.old) × (lines.new ≡ lines.old) }
    ensures memory { result ≡ Err SnapFault.Memory → lab.new.spent ≡ true }
{
    snapshots_are_what_they_spell();
    let result = load_or_part(alloc, lab, lines, bytes);
    if result == Err(SnapFault::Memory) {
        lab.spend();
    }
    result
}
