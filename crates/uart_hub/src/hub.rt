//! One hub.
ghost use Rattle.std.specs.Prelude.{◌≡◌, [], IfOk, OnOk, OnErr};
ghost use Rattle.lab_num.specs.Route.{has_member};
ghost use Rattle.lab_num.specs.Route as routes;
ghost use Rattle.uart_hub.specs.Hub.{with_member};

use lab_num::{Member, NoMemory};
use std::alloc::Global;
use std::marker::Model;

/// A hub: its delay in microseconds, and its members in order of connection.
#[derive(Drop)]
pub struct Hub {
    delay: u64,
    members: Vec<Member>,
}

impl Model for Hub {
    ghost use Rattle.uart_hub.specs.Hub as hub_spec;

    ghost Value = { hub_spec.Hub };

    ghost view = { λ h. record { delay = h.delay; members = h.members.items } };
}

impl Hub {
    /// A hub of this delay, without members. Nothing is allocated.
    pub fn new(alloc: Global, delay: u64) -> Hub
        ensures { result ≡ record { delay = delay; members = [] } }
    {
        Hub {
            delay,
            members: Vec::new(alloc),
        }
    }

    /// How long the hub holds back what its members send, in microseconds.
    pub fn delay(&self) -> u64
        ensures { result ≡ self.now.delay }
    {
        self.delay
    }

    pub fn members(&self) -> &[Member]
        ensures { result.now ≡ self.now.members }
    {
        &self.members
    }

    pub fn contains(&self, member: Member) -> bool
        ensures { result ≡ has_member self.now.members member }
    {
        self.members.contains(&member)
    }

    /// Puts a member at the end.
    pub fn push(&mut self, member: Member) -> Result<(), NoMemory>
        ensures ok { OnOk result (self.new ≡ with_member member self.old) }
        ensures err { OnErr result (self.new ≡ self.old) }
    {
        self.members.push(member)?;
        Ok(())
    }

    /// The members other than `from`, in order of connection.
    pub fn others(&self, alloc: Global, from: Member) -> Result<Vec<Member>, NoMemory>
        ensures { IfOk result (λ list. list.items ≡ routes.others self.now.members from) }
    {
        // room for all at once: what a filter leaves is not known before, and its list would grow
        let mut list = Vec::with_capacity(alloc, self.members.len())?;
        for other in &self.members {
            if *other != from {
                list.push(*other)?;
            }
        }
        Ok(list)
    }
}
