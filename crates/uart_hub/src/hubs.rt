//! The hubs of the laboratory.
ghost use Rattle.std.specs.Prelude.{◌≡◌, ◌+◌, ◌^◌, ◌<◌, ◌↔◌, ◌++◌, ◌∷◌, [], length, IsTrue, IfOk, OnOk, OnErr};
ghost use Rattle.std.specs.Prelude.{slice_get, find, Some};
ghost use Rattle.std.specs.Option.{option_map};
ghost use Rattle.lab_num.specs.Change.{change_at};
ghost use Rattle.lab_num.specs.Route.{StandOnce, is_connected, has_member};
ghost use Rattle.lab_num.specs.Route as routes;
ghost use Rattle.uart_hub.specs.Hub.{members_of, delay_of, with_member};

use crate::hub::Hub;
use crate::ranks::Ranks;
use lab_num::{Member, NoMemory};
use std::alloc::Global;
use std::marker::Model;

/// Why a member was not connected.
#[derive(Clone, Copy)]
pub enum HubFault {
    /// The member is in some hub already.
    Already,
    /// Memory ran out.
    Memory,
}

impl From<NoMemory> for HubFault {
    ghost use Rattle.std.specs.Prelude.{◌≡◌};
    ghost use Rattle.uart_hub.specs.declared.hubs.HubFault.TheVariants.{Memory};

    ghost from_gives = { λ _ fault. fault ≡ Memory };

    fn from(_fault: NoMemory) -> HubFault {
        HubFault::Memory
    }
}

/// Hubs, numbered from 0 in order of creation. Contracts see each as its delay in microseconds and
/// its members in order of connection. No member is in two hubs, nor twice in one.
#[derive(Drop)]
pub struct UartHubs {
    alloc: Global,
    hubs: Vec<Hub>,
    ranks: Ranks,
}

impl Model for UartHubs {
    ghost use Rattle.std.specs.Prelude.{List};
    ghost use Rattle.lab_num.specs.Route.{StandOnce};
    ghost use Rattle.uart_hub.specs.Hub as hub_spec;
    ghost use Rattle.uart_hub.specs.Inner.Rank.{AreRanks};

    ghost Value = { List hub_spec.Hub };

    ghost view = { λ h. h.hubs.items };

    ghost invariant = { λ h.
        StandOnce (hub_spec.members_of h.hubs.items) × AreRanks h.ranks h.hubs.items };
}

impl UartHubs {
    /// No hubs yet. Nothing is allocated.
    pub fn new(alloc: Global) -> UartHubs
        ensures { result ≡ [] }
    {
        UartHubs {
            alloc,
            hubs: Vec::new(alloc),
            ranks: Ranks::new(alloc),
        }
    }

    /// How many hubs there are.
    pub fn len(&self) -> usize
        ensures count { result ≡ length self.now }
        ensures once { StandOnce (members_of self.now) }
    {
        self.hubs.len()
    }

    pub fn is_empty(&self) -> bool
        ensures { IsTrue result ↔ (self.now ≡ []) }
    {
        self.hubs.is_empty()
    }

    /// A new hub of this delay, in microseconds, without members. Its number is the count of hubs
    /// before.
    pub fn create(&mut self, delay: u64) -> Result<u32, NoMemory>
        requires { length self.old + 1 < 2 ^ 32 }
        ensures number { IfOk result (λ hub. hub ≡ length self.old) }
        ensures ok { OnOk result (self.new
            ≡ self.old ++ record { delay = delay; members = [] } ∷ []) }
        ensures err { OnErr result (self.new ≡ self.old) }
    {
        let number = self.hubs.len() as u32;
        self.hubs.push(Hub::new(self.alloc, delay))?;
        Ok(number)
    }

    /// The hub that has a member. None exactly where no hub has it.
    pub fn hub_of(&self, member: Member) -> Option<&Hub>
        ensures { option_map (λ hub. hub.now) result
            ≡ find (λ hub. has_member hub.members member) self.now }
    {
        let rank = self.ranks.of(member);
        if rank == 0 {
            return None;
        }
        Some(&self.hubs[rank - 1])
    }

    fn is_connected(&self, member: Member) -> bool
        ensures { result ≡ routes.is_connected (members_of self.now) member }
    {
        self.hub_of(member).is_some()
    }

    /// Puts a member at the end of a hub.
    pub fn connect(&mut self, hub: u32, member: Member) -> Result<(), HubFault>
        requires { hub < length self.old }
        ensures ok { OnOk result (self.new ≡ change_at self.old hub (with_member member)) }
        ensures already { (result ≡ Err HubFault.Already)
            ↔ IsTrue (is_connected (members_of self.old) member) }
        ensures err { OnErr result (self.new ≡ self.old) }
    {
        if self.is_connected(member) {
            return Err(HubFault::Already);
        }
        self.ranks.reach(member)?;
        self.hubs[hub as usize].push(member)?;
        self.ranks.put(member, hub as usize + 1);
        Ok(())
    }

    /// The other members of the hub of `from`, in order of connection. There are none where `from`
    /// is in no hub.
    pub fn route(&self, from: Member) -> Result<Vec<Member>, NoMemory>
        ensures { IfOk result (λ list. list.items ≡ routes.route (members_of self.now) from) }
    {
        match self.hub_of(from) {
            Some(hub) => hub.others(self.alloc, from),
            None => Ok(Vec::new(self.alloc)),
        }
    }

    /// How long the hub of `from` holds back what it sends, in microseconds. None exactly where
    /// `from` is in no hub.
    pub fn delay(&self, from: Member) -> Option<u64>
        ensures { result ≡ delay_of self.now from }
    {
        self.hub_of(from).map(|hub| hub.delay())
    }

    /// How long a hub holds back what its members send, in microseconds.
    pub fn hub_delay(&self, hub: u32) -> u64
        requires { hub < length self.now }
        ensures { Some result ≡ option_map (λ hub. hub.delay) (slice_get self.now hub) }
    {
        self.hubs[hub as usize].delay()
    }

    /// The members of a hub, in order of connection.
    pub fn members(&self, hub: u32) -> &[Member]
        requires { hub < length self.now }
        ensures value { Some result.now ≡ option_map (λ hub. hub.members) (slice_get self.now hub) }
        ensures once { StandOnce (members_of self.now) }
    {
        self.hubs[hub as usize].members()
    }
}
