//! The hubs of a laboratory.
ghost use Rattle.std.specs.Prelude.{◌≡◌, ◌+◌, ◌^◌, ◌<◌, ◌≤◌, ◌↔◌, ◌≢◌, ◌++◌, ◌∷◌, []};
ghost use Rattle.std.specs.Prelude.{length, false, Some, None, slice_get};
ghost use Rattle.std.specs.Prelude.{IfSome, IfOk, IfErr, IsSome, IsTrue, OnOk, OnErr};
ghost use Rattle.std.specs.Option.{option_map};
ghost use Rattle.lab_num.specs.Name as name_spec;
ghost use Rattle.lab_num.specs.Route.{StandOnce, is_connected};
ghost use Rattle.dev_core.specs.declared.kind.Kind.TheVariants.{Uart, Can};
ghost use Rattle.dev_core.specs.Kind.{row_of};
ghost use Rattle.lab_state.specs.Hub.{members_of};
ghost use Rattle.lab_state.specs.Names as names_spec;
ghost use Rattle.lab_state.specs.One.{kind_at};

use crate::faults::{ConnectFault, HubNameFault};
use crate::lab::Lab;
use dev_core::{Device, Kind};
use lab_num::{Member, Text};

fn is_same(a: Kind, b: Kind) -> bool
    ensures { IsTrue result ↔ (a ≡ b) }
{
    a == b
}

impl<D: Device> Lab<D> {
    /// The number of the hub of this name.
    fn hub_named(&self, name: &str) -> Option<usize>
        ensures number { result ≡ names_spec.hub_named self.now.lab name.now }
        ensures few { IfSome result (λ n. n < 2 ^ 32) }
    {
        self.hubs.find(name)
    }

    /// The number of the hub that has a name. None exactly where no hub has it.
    pub fn find_hub(&self, name: &str) -> Option<u32>
        requires { self.now.spent ≡ false }
        ensures { result ≡ names_spec.hub_named self.now.lab name.now }
    {
        match self.hub_named(name) {
            Some(n) => Some(n as u32),
            None => None,
        }
    }

    /// Creates a hub that connects devices of this kind, without members. It holds back what its
    /// members send for `delay` microseconds, at most a second.
    pub fn create_hub(&mut self, name: &str, kind: Kind, delay: u64) -> Result<(), HubNameFault>
        requires unspent { self.old.spent ≡ false }
        requires is_name { IsTrue (name_spec.is_name name.now) }
        requires kind { IsTrue (row_of kind).joins_hubs }
        requires delay { delay ≤ 1000000 }
        requires room { length self.old.lab.hubs + 1 < 2 ^ 32 }
        ensures ok { OnOk result (self.new ≡ record self.old {
          lab = record self.old.lab {
            hubs = self.old.lab.hubs
                ++ record { name = name.now; kind = kind; delay = delay; members = [] } ∷ [];
          };
        }) }
        ensures taken { (result ≡ Err HubNameFault.Taken)
            ↔ IsTrue (names_spec.is_taken self.old.lab name.now) }
        ensures err { OnErr result (self.new ≡ self.old) }
    {
        if self.is_taken(name) {
            return Err(HubNameFault::Taken);
        }
        let text = Text::of(self.alloc, name)?;
        self.hubs.create(text, kind, delay)?;
        Ok(())
    }

    /// Creates a hub that connects UARTs, without members. It holds back what its members send for
    /// `delay` microseconds, at most a second.
    pub fn create_uart_hub(&mut self, name: &str, delay: u64) -> Result<(), HubNameFault>
        requires unspent { self.old.spent ≡ false }
        requires is_name { IsTrue (name_spec.is_name name.now) }
        requires delay { delay ≤ 1000000 }
        requires room { length self.old.lab.hubs + 1 < 2 ^ 32 }
        ensures ok { OnOk result (self.new ≡ record self.old {
          lab = record self.old.lab {
            hubs = self.old.lab.hubs
                ++ record { name = name.now; kind = Uart; delay = delay; members = [] } ∷ [];
          };
        }) }
        ensures taken { (result ≡ Err HubNameFault.Taken)
            ↔ IsTrue (names_spec.is_taken self.old.lab name.now) }
        ensures err { OnErr result (self.new ≡ self.old) }
    {
        self.create_hub(name, Kind::Uart, delay)
    }

    /// Creates a hub that connects CAN controllers, without members. It holds back what its members
    /// send for `delay` microseconds, at most a second.
    pub fn create_can_hub(&mut self, name: &str, delay: u64) -> Result<(), HubNameFault>
        requires unspent { self.old.spent ≡ false }
        requires is_name { IsTrue (name_spec.is_name name.now) }
        requires delay { delay ≤ 1000000 }
        requires room { length self.old.lab.hubs + 1 < 2 ^ 32 }
        ensures ok { OnOk result (self.new ≡ record self.old {
          lab = record self.old.lab {
            hubs = self.old.lab.hubs
                ++ record { name = name.now; kind = Can; delay = delay; members = [] } ∷ [];
          };
        }) }
        ensures taken { (result ≡ Err HubNameFault.Taken)
            ↔ IsTrue (names_spec.is_taken self.old.lab name.now) }
        ensures err { OnErr result (self.new ≡ self.old) }
    {
        self.create_hub(name, Kind::Can, delay)
    }

    /// The number of the hub of this name, if it connects devices of this kind.
    fn hub_for(&self, kind: Kind, hub: &str) -> Result<usize, ConnectFault>
        requires { self.now.spent ≡ false }
        ensures number { IfOk result (λ n. names_spec.hub_named self.now.lab hub.now ≡ Some n) }
        ensures head { IfOk result (λ n.
            option_map (λ hub. hub.kind) (slice_get self.now.lab.hubs n) ≡ Some kind) }
        ensures ok { OnOk result (names_spec.kind_named self.now.lab hub.now ≡ Some kind) }
        ensures name { (result ≡ Err ConnectFault.Name)
            ↔ (names_spec.hub_named self.now.lab hub.now ≡ None) }
        ensures kind { (result ≡ Err ConnectFault.Kind)
            ↔ (IsSome (names_spec.hub_named self.now.lab hub.now)
            × (names_spec.kind_named self.now.lab hub.now ≢ Some kind)) }
        ensures err { OnErr result (names_spec.kind_named self.now.lab hub.now ≢ Some kind) }
        ensures fault { IfErr result (λ fault. fault ≢ ConnectFault.Already) }
    {
        let Some(n) = self.hub_named(hub) else {
            return Err(ConnectFault::Name);
        };
        if is_same(self.hubs.kind(n), kind) {
            Ok(n)
        } else {
            Err(ConnectFault::Kind)
        }
    }

    /// Puts a device of a board that has a plan at the end of the hub of this name.
    pub fn connect(&mut self, member: Member, hub: &str) -> Result<(), ConnectFault>
        requires unspent { self.old.spent ≡ false }
        requires device { IsSome (kind_at self.old.lab.boards member) }
        ensures ok { OnOk result (self.new ≡ record self.old {
          lab = names_spec.connected_to self.old.lab
              (names_spec.hub_named self.old.lab hub.now) member;
        }) }

        // A hub that does not exist is reported as such, even where the device is in another.
        ensures name { (result ≡ Err ConnectFault.Name)
            ↔ (names_spec.hub_named self.old.lab hub.now ≡ None) }
        // A hub of another kind is reported as such, even where the device is in another.
        ensures kind { (result ≡ Err ConnectFault.Kind)
            ↔ (IsSome (names_spec.hub_named self.old.lab hub.now)
            × (names_spec.kind_named self.old.lab hub.now ≢ kind_at self.old.lab.boards member)) }
        ensures already { (result ≡ Err ConnectFault.Already)
            ↔ ((names_spec.kind_named self.old.lab hub.now ≡ kind_at self.old.lab.boards member)
            × IsTrue (is_connected (members_of self.old.lab.hubs) member)) }
        ensures err { OnErr result (self.new ≡ self.old) }
    {
        let n = self.hub_for(self.kind_of(member), hub)?;
        self.hubs.connect(n, member)?;
        Ok(())
    }

    /// How many hubs there are.
    pub fn hubs(&self) -> u32
        requires { self.now.spent ≡ false }
        ensures { result ≡ length self.now.lab.hubs }
    {
        self.hubs.len()
    }

    /// The name of a hub, which no other hub and no board has.
    pub fn hub_name(&self, n: u32) -> &Text
        requires unspent { self.now.spent ≡ false }
        requires exists { n < length self.now.lab.hubs }
        ensures value { Some result.now
            ≡ option_map (λ hub. hub.name) (slice_get self.now.lab.hubs n) }
        ensures found { names_spec.hub_named self.now.lab result.now ≡ Some n }
        ensures no_board { names_spec.board_named self.now.lab result.now ≡ None }
    {
        self.hubs.name(n as usize)
    }

    /// The kind of devices that a hub connects.
    pub fn hub_kind(&self, n: u32) -> Kind
        requires unspent { self.now.spent ≡ false }
        requires exists { n < length self.now.lab.hubs }
        ensures { Some result ≡ option_map (λ hub. hub.kind) (slice_get self.now.lab.hubs n) }
    {
        self.hubs.kind(n as usize)
    }

    /// How long a hub holds back what its members send, in microseconds.
    pub fn hub_delay(&self, n: u32) -> u64
        requires unspent { self.now.spent ≡ false }
        requires exists { n < length self.now.lab.hubs }
        ensures value { Some result
            ≡ option_map (λ hub. hub.delay) (slice_get self.now.lab.hubs n) }
        ensures most { result ≤ 1000000 }
    {
        self.hubs.hub_delay(n)
    }

    /// The members of a hub, in order of connection.
    pub fn hub_members(&self, n: u32) -> &[Member]
        requires unspent { self.now.spent ≡ false }
        requires exists { n < length self.now.lab.hubs }
        ensures value { Some result.now
            ≡ option_map (λ hub. hub.members) (slice_get self.now.lab.hubs n) }
        ensures once { StandOnce (members_of self.now.lab.hubs) }
    {
        self.hubs.members(n)
    }
}
