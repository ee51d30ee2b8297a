//! The hubs of a laboratory, and who is in them.
ghost use Rattle.std.specs.Prelude.{◌≡◌, ◌↔◌, ◌++◌, IfOk, IsTrue, true, false};
ghost use Rattle.std.specs.List.{IsDistinct};
ghost use Rattle.std.specs.Option.{option_map};
ghost use Rattle.indexmap.specs.IndexMap.{keys};
ghost use Rattle.lab_num.specs.Key.{same_member};
ghost use Rattle.lab_snap.specs.Inner.Parts.{AreDelays, AreHubs, IsHubIn, IsMemberOf, places};

use super::boards::kind_in;
use crate::hub::SavedHub;
use crate::lab::SavedBoard;
use dev_core::Kind;
use indexmap::IndexMap;
use lab_num::{Member, NoMemory};
use std::alloc::Global;

/// For each device that is in a hub, how long the hub holds back what it sends, in microseconds.
pub type Delays = IndexMap<Member, u32>;

/// How many hubs are too many.
const TOO_MANY_HUBS: u64 = 1 << 32;

/// Whether a device can be in a hub of a kind.
fn is_member(boards: &[SavedBoard], kind: Kind, member: Member) -> bool
    ensures { IsTrue result ↔ IsMemberOf boards.now kind member }
{
    match kind_in(boards, member) {
        Some(own) => own == kind,
        None => false,
    }
}

/// Whether the hub can stand among these boards.
fn is_hub(boards: &[SavedBoard], hub: &SavedHub) -> bool
    ensures { IsTrue result ↔ IsHubIn boards.now hub.now }
{
    let members = hub.members.items();
    hub.is_valid()
        && members
            .iter()
            .all(|&member| is_member(boards, hub.kind, member))
}

/// Whether the hubs can stand among these boards, their names aside, and whether a device is in two.
pub fn are_hubs(boards: &[SavedBoard], hubs: &[SavedHub]) -> bool
    ensures { IsTrue result ↔ AreHubs boards.now hubs.now }
{
    (hubs.len() as u64) < TOO_MANY_HUBS && hubs.iter().all(|hub| is_hub(boards, hub))
}

/// Notes the delay of each member of a hub. False where one of them is in a hub already.
fn add_members(delays: &mut Delays, hub: &SavedHub) -> Result<bool, NoMemory>
    ensures added { IfOk result (λ added. added ≡ true →
        delays.new.entries ≡ delays.old.entries ++ places hub.now) }
    ensures once { IfOk result (λ added. added ≡ true →
        IsDistinct same_member (keys delays.old) → IsDistinct same_member (keys delays.new)) }
    ensures twice { IfOk result (λ added. added ≡ false →
        IsDistinct same_member (keys delays.old ++ hub.now.members) → ⊥) }
{
    let members = hub.members.items();
    for &member in members {
        if delays.insert(member, hub.delay)?.is_some() {
            return Ok(false);
        }
    }
    Ok(true)
}

/// The delay of each device that is in a hub. None exactly where one is in two hubs, or twice in one.
pub fn delays(alloc: Global, hubs: &[SavedHub]) -> Result<Option<Delays>, NoMemory>
    ensures { IfOk result (λ delays. AreDelays hubs.now (option_map (λ d. d.entries) delays)) }
{
    let mut delays = IndexMap::new(alloc);
    for hub in hubs {
        if !add_members(&mut delays, hub)? {
            return Ok(None);
        }
    }
    Ok(Some(delays))
}
