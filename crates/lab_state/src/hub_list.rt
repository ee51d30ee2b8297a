//! The hubs of a laboratory.
ghost use Rattle.std.specs.Prelude.{◌≡◌, ◌+◌, ◌^◌, ◌<◌, ◌↔◌, ◌++◌, ◌∷◌, [], length, position, slice_get, Some, IsTrue};
ghost use Rattle.std.specs.Prelude.{None, nat_eq, OnOk, OnErr, IfSome};
ghost use Rattle.std.specs.Cmp.Lexicographic.{pointwise};
ghost use Rattle.std.specs.Option.{option_map, option_map_or};
ghost use Rattle.std.specs.Str.{bytes_eq};
ghost use Rattle.indexmap.specs.IndexMap.{get};
ghost use Rattle.lab_num.specs.Route.{StandOnce, is_connected};
ghost use Rattle.lab_num.specs.Route as routes;
ghost use Rattle.lab_num.specs.Change.{change_at};
ghost use Rattle.lab_state.specs.Hub.{members_of, delay_of};
ghost use Rattle.lab_state.specs.One.{with_member};

use dev_core::Kind;
use indexmap::IndexMap;
use lab_num::{Member, NoMemory, Text};
use std::alloc::Global;
use std::marker::Model;
use uart_hub::{Hub, HubFault, UartHubs};

/// The hubs of all kinds in order of creation. `UartHubs` keeps members of any kind: no device is in
/// two of these hubs, and each route is within one.
#[derive(Drop)]
pub struct HubList {
    names: IndexMap<Text, Kind>,
    hubs: UartHubs,
}

impl Model for HubList {
    ghost use Rattle.std.specs.Prelude.{◌<◌, ◌^◌, List, length};
    ghost use Rattle.lab_state.specs.Hub.{Hub};
    ghost use Rattle.lab_state.specs.Inner.Hubs.{hubs_of, AreParts};

    ghost Value = { List Hub };

    ghost view = { λ h. hubs_of h.names.entries h.hubs };

    ghost invariant = { λ h.
        AreParts h.names.entries h.hubs (hubs_of h.names.entries h.hubs)
        × (length h.hubs < 2 ^ 32) };
}

/// Keeps a name with its kind and makes a hub of this delay, or neither.
fn create_both(
    names: &mut IndexMap<Text, Kind>,
    hubs: &mut UartHubs,
    name: Text,
    kind: Kind,
    delay: u64,
) -> Result<(), NoMemory>
    requires new { get (pointwise nat_eq) names.old name ≡ None }
    requires room { length hubs.old + 1 < 2 ^ 32 }
    ensures name { OnOk result (names.new.entries ≡ names.old.entries ++ (name, kind) ∷ []) }
    ensures hub { OnOk result (hubs.new
        ≡ hubs.old ++ record { delay = delay; members = [] } ∷ []) }
    ensures no_name { OnErr result (names.new.entries ≡ names.old.entries) }
    ensures no_hub { OnErr result (hubs.new ≡ hubs.old) }
{
    names.reserve(1)?;
    hubs.create(delay)?;
    names.insert(name, kind)?;
    Ok(())
}

impl HubList {
    pub fn new(alloc: Global) -> HubList
        ensures { result ≡ [] }
    {
        HubList {
            names: IndexMap::new(alloc),
            hubs: UartHubs::new(alloc),
        }
    }

    /// How many hubs there are. No device is in two of them, nor twice in one.
    pub fn len(&self) -> u32
        ensures count { result ≡ length self.now }
        ensures once { StandOnce (members_of self.now) }
    {
        self.hubs.len() as u32
    }

    /// The number of the first hub of this name.
    pub fn find(&self, name: &str) -> Option<usize>
        ensures number { result ≡ position (λ hub. bytes_eq hub.name name.now) self.now }
        ensures few { IfSome result (λ n. n < 2 ^ 32) }
    {
        self.names.get_index_of(name)
    }

    /// The name of a hub.
    pub fn name(&self, n: usize) -> &Text
        requires { n < length self.now }
        ensures { Some result.now ≡ option_map (λ hub. hub.name) (slice_get self.now n) }
    {
        self.names.get_index(n).unwrap().0
    }

    /// The kind of devices that a hub connects.
    pub fn kind(&self, n: usize) -> Kind
        requires { n < length self.now }
        ensures { Some result ≡ option_map (λ hub. hub.kind) (slice_get self.now n) }
    {
        *self.names.get_index(n).unwrap().1
    }

    /// The members of a hub, in order of connection.
    pub fn members(&self, n: u32) -> &[Member]
        requires { n < length self.now }
        ensures value { Some result.now ≡ option_map (λ hub. hub.members) (slice_get self.now n) }
        ensures once { StandOnce (members_of self.now) }
    {
        self.hubs.members(n)
    }

    /// How long a hub holds back what its members send, in microseconds.
    pub fn hub_delay(&self, n: u32) -> u64
        requires { n < length self.now }
        ensures { Some result ≡ option_map (λ hub. hub.delay) (slice_get self.now n) }
    {
        self.hubs.hub_delay(n)
    }

    /// The hub of `from`, without its name: how long it holds back what its members send, and its
    /// members. None exactly where `from` is in no hub.
    pub fn hub_of(&self, from: Member) -> Option<&Hub>
        ensures delay { option_map (λ hub. hub.now.delay) result ≡ delay_of self.now from }
        ensures members { option_map_or (λ hub. hub.now.members) result []
            ≡ routes.hub_of (members_of self.now) from }
    {
        self.hubs.hub_of(from)
    }

    /// Creates a hub that connects devices of this kind, of this delay, without members. No hub has
    /// the name yet.
    pub fn create(&mut self, name: Text, kind: Kind, delay: u64) -> Result<(), NoMemory>
        requires new { position (λ hub. bytes_eq hub.name name) self.old ≡ None }
        requires room { length self.old + 1 < 2 ^ 32 }
        ensures ok { OnOk result (self.new ≡ self.old
            ++ record { name = name; kind = kind; delay = delay; members = [] } ∷ []) }
        ensures err { OnErr result (self.new ≡ self.old) }
    {
        create_both(&mut self.names, &mut self.hubs, name, kind, delay)?;
        Ok(())
    }

    /// Puts a member at the end of a hub.
    pub fn connect(&mut self, n: usize, member: Member) -> Result<(), HubFault>
        requires { n < length self.old }
        ensures ok { OnOk result (self.new ≡ change_at self.old n (with_member member)) }
        ensures already { (result ≡ Err HubFault.Already)
            ↔ IsTrue (is_connected (members_of self.old) member) }
        ensures err { OnErr result (self.new ≡ self.old) }
    {
        self.hubs.connect(n as u32, member)
    }
}
