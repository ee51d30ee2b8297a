//! The names of a laboratory.
ghost use Rattle.std.specs.Prelude.{◌≡◌, ◌↔◌, map, IfOk, IsTrue};
ghost use Rattle.std.specs.List.{IsDistinct};
ghost use Rattle.std.specs.Str.{bytes_eq};
ghost use Rattle.lab_snap.specs.Inner.Parts.{names_of};

use crate::lab::{SavedBoard, SavedLab};
use indexmap::IndexSet;
use lab_num::NoMemory;
use std::alloc::Global;

fn board_names(alloc: Global, boards: &[SavedBoard]) -> Result<Vec<&str>, NoMemory>
    ensures { IfOk result (λ names. map (λ name. name.now) names.items
        ≡ map (λ board. board.name) boards.now) }
{
    let mut names = Vec::new(alloc);
    for board in boards {
        names.push(board.name.as_str())?;
    }
    Ok(names)
}

/// The names of the boards, and then those of the hubs.
fn all_names(alloc: Global, lab: &SavedLab) -> Result<Vec<&str>, NoMemory>
    ensures { IfOk result (λ names. map (λ name. name.now) names.items ≡ names_of lab.now) }
{
    let hubs = lab.hubs.items();
    let mut names = board_names(alloc, lab.boards.items())?;
    for hub in hubs {
        names.push(hub.name.as_str())?;
    }
    Ok(names)
}

/// Whether no two of the names are one.
fn are_distinct(alloc: Global, names: &[&str]) -> Result<bool, NoMemory>
    ensures { IfOk result (λ distinct. IsTrue distinct
        ↔ IsDistinct bytes_eq (map (λ name. name.now) names.now)) }
{
    let mut seen = IndexSet::new(alloc);
    for &name in names {
        if !seen.insert(name)? {
            return Ok(false);
        }
    }
    Ok(true)
}

/// Whether no two boards, no two hubs, and no board and hub have one name.
pub fn do_names_differ(alloc: Global, lab: &SavedLab) -> Result<bool, NoMemory>
    ensures { IfOk result (λ differ. IsTrue differ ↔ IsDistinct bytes_eq (names_of lab.now)) }
{
    are_distinct(alloc, &all_names(alloc, lab)?)
}
