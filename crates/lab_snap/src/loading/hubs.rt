//! The hubs of a saved laboratory are created, and their members connected.
ghost use Rattle.std.specs.Prelude.{◌≡◌, ◌+◌, ◌++◌, ◌∷◌, ◌<◌, ◌≤◌, ◌^◌, [], false, length, map, All, IsSome, IsTrue};
ghost use Rattle.std.specs.Prelude.{OnErr, OnOk, Some};
ghost use Rattle.dev_core.specs.Kind.{row_of};
ghost use Rattle.lab_num.specs.Name.{is_name};
ghost use Rattle.lab_num.specs.Route.{is_connected, StandOnce};
ghost use Rattle.lab_state.specs.Hub.{members_of};
ghost use Rattle.lab_state.specs.Names.{connected_to, hub_named, is_taken, kind_named};
ghost use Rattle.lab_state.specs.One.{kind_at};
ghost use Rattle.lab_snap.specs.Inner.Building.{with_hubs, CanBeCreated};
ghost use Rattle.lab_snap.specs.Loaded.{loaded_hub};

use crate::hub::SavedHub;
use dev_core::{Device, Kind};
use lab_num::{Member, NoMemory};
use lab_state::{ConnectFault, HubNameFault, Lab};

/// Creates a hub without members, of a name that is free.
fn create_bare<D: Device>(
    lab: &mut Lab<D>,
    name: &str,
    kind: Kind,
    delay: u32,
) -> Result<(), NoMemory>
    requires unspent { lab.old.spent ≡ false }
    requires is_name { IsTrue (is_name name.now) }
    requires kind { IsTrue (row_of kind).joins_hubs }
    requires delay { delay ≤ 1000000 }
    requires room { length lab.old.lab.hubs + 1 < 2 ^ 32 }
    requires free { is_taken lab.old.lab name.now ≡ false }
    ensures ok { OnOk result (lab.new ≡ with_hubs lab.old (lab.old.lab.hubs
        ++ record { name = name.now; kind = kind; delay = delay; members = [] } ∷ [])) }
    ensures err { OnErr result (lab.new ≡ lab.old) }
{
    match lab.create_hub(name, kind, u64::from(delay)) {
        Ok(()) => Ok(()),
        Err(HubNameFault::Memory) => Err(NoMemory),
        Err(HubNameFault::Taken) => unreachable!(),
    }
}

/// Puts a device that is in no hub at the end of a hub of its kind.
fn connect<D: Device>(lab: &mut Lab<D>, member: Member, hub: &str) -> Result<(), NoMemory>
    requires unspent { lab.old.spent ≡ false }
    requires device { IsSome (kind_at lab.old.lab.boards member) }
    requires kind { kind_named lab.old.lab hub.now ≡ kind_at lab.old.lab.boards member }
    requires free { is_connected (members_of lab.old.lab.hubs) member ≡ false }
    ensures ok { OnOk result (lab.new ≡ record lab.old {
      lab = connected_to lab.old.lab (hub_named lab.old.lab hub.now) member;
    }) }
    ensures err { OnErr result (lab.new ≡ lab.old) }
{
    match lab.connect(member, hub) {
        Ok(()) => Ok(()),
        Err(ConnectFault::Memory) => Err(NoMemory),
        Err(ConnectFault::Name | ConnectFault::Kind | ConnectFault::Already) => unreachable!(),
    }
}

/// Creates a hub with its members.
fn create<D: Device>(lab: &mut Lab<D>, hub: &SavedHub) -> Result<(), NoMemory>
    requires unspent { lab.old.spent ≡ false }
    requires is_name { IsTrue (is_name hub.now.name) }
    requires kind { IsTrue (row_of hub.now.kind).joins_hubs }
    requires delay { hub.now.delay ≤ 1000000 }
    requires room { length lab.old.lab.hubs + 1 < 2 ^ 32 }
    requires free { is_taken lab.old.lab hub.now.name ≡ false }
    requires members { All (λ m. kind_at lab.old.lab.boards m ≡ Some hub.now.kind) hub.now.members }
    requires once { StandOnce (members_of lab.old.lab.hubs ++ hub.now.members ∷ []) }
    ensures ok { OnOk result (lab.new ≡ with_hubs lab.old (lab.old.lab.hubs ++ loaded_hub hub.now ∷ [])) }
    ensures unspent { lab.new.spent ≡ false }
{
    create_bare(lab, hub.name.as_str(), hub.kind, hub.delay)?;
    for &member in hub.members.items() {
        connect(lab, member, hub.name.as_str())?;
    }
    Ok(())
}

/// Creates all hubs with their members.
pub(super) fn create_hubs<D: Device>(lab: &mut Lab<D>, hubs: &[SavedHub]) -> Result<(), NoMemory>
    requires unspent { lab.old.spent ≡ false }
    requires no_hub { lab.old.lab.hubs ≡ [] }
    requires can { CanBeCreated lab.old.lab.boards hubs.now }
    ensures ok { OnOk result (lab.new ≡ with_hubs lab.old (map loaded_hub hubs.now)) }
    ensures unspent { lab.new.spent ≡ false }
{
    for hub in hubs {
        create(lab, hub)?;
    }
    Ok(())
}
