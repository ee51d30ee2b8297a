//! Commands that make hubs, connect devices to them and show what devices send.
ghost use Rattle.std.specs.Prelude.{◌≡◌, ◌≤◌, true, false, IfOk, IsSome, IsTrue};
ghost use Rattle.lab_num.specs.Name.{is_name};
ghost use Rattle.lab_state.specs.One.{kind_at};
ghost use Rattle.monitor.specs.Hubs as hubs;
ghost use Rattle.monitor.specs.Inner.Reading.{joining};
ghost use Rattle.monitor.specs.Inner.Ruling.{IsRuled};

use crate::monitor::Monitor;
use crate::stop::Stop;
use dev_core::Device;
use lab_num::{Member, Micros};
use lab_state::{ConnectFault, HubNameFault};
use resc_vars::ScriptCause;

/// The most hubs that a laboratory has. No memory holds as many.
const MOST_HUBS: u32 = u32::MAX;

impl From<HubNameFault> for Stop {
    ghost use Rattle.std.specs.Prelude.{◌≡◌};
    ghost use Rattle.monitor.specs.Inner.Ruling.{hub_stop};

    ghost from_gives = { λ fault stop. stop ≡ hub_stop fault };

    fn from(fault: HubNameFault) -> Stop {
        match fault {
            HubNameFault::Taken => Stop::Line(ScriptCause::Taken),
            HubNameFault::Memory => Stop::Memory,
        }
    }
}

impl From<ConnectFault> for Stop {
    ghost use Rattle.std.specs.Prelude.{◌≡◌};
    ghost use Rattle.monitor.specs.Inner.Ruling.{connect_stop};

    ghost from_gives = { λ fault stop. stop ≡ connect_stop fault };

    fn from(fault: ConnectFault) -> Stop {
        match fault {
            ConnectFault::Name => Stop::Line(ScriptCause::Name),
            ConnectFault::Kind => Stop::Line(ScriptCause::Kind),
            ConnectFault::Already => Stop::Line(ScriptCause::Connected),
            ConnectFault::Memory => Stop::Memory,
        }
    }
}

impl<D: Device> Monitor<D> {
    /// Makes a hub of UARTs, which holds back for this long what they send.
    pub(crate) fn uart_hub(&mut self, name: &str, delay: Micros) -> Result<Vec<u8>, Stop>
        requires unspent { self.old.spent ≡ false }
        requires waits { self.old.ended ≡ true }
        requires is_name { IsTrue (is_name name.now) }
        requires short { delay.0 ≤ 1000000 }
        ensures { IsRuled (hubs.uart_hub self.old.state name.now delay.0) result self.old self.new }
    {
        if self.lab.hubs() >= MOST_HUBS {
            return Err(Stop::Memory);
        }
        self.lab.create_uart_hub(name, delay.0)?;
        Ok(Vec::new(self.alloc))
    }

    /// Makes a hub of CAN controllers, which holds back for this long what they send.
    pub(crate) fn can_hub(&mut self, name: &str, delay: Micros) -> Result<Vec<u8>, Stop>
        requires unspent { self.old.spent ≡ false }
        requires waits { self.old.ended ≡ true }
        requires is_name { IsTrue (is_name name.now) }
        requires short { delay.0 ≤ 1000000 }
        ensures { IsRuled (hubs.can_hub self.old.state name.now delay.0) result self.old self.new }
    {
        if self.lab.hubs() >= MOST_HUBS {
            return Err(Stop::Memory);
        }
        self.lab.create_can_hub(name, delay.0)?;
        Ok(Vec::new(self.alloc))
    }

    /// The device of the selected board that goes into a hub of this name.
    fn joining(&self, dev: &str, hub: &str) -> Result<Member, ScriptCause>
        requires { self.now.spent ≡ false }
        ensures meant { result ≡ joining self.now.state dev.now hub.now }
        ensures device { IfOk result (λ m. IsSome (kind_at self.now.state.lab.boards m)) }
    {
        let b = self.equipped()?;
        let what = self.entry(b, dev)?;
        if self.lab.find_hub(hub).is_none() {
            return Err(ScriptCause::Name);
        }
        self.speaker(b, what)
    }

    /// Puts a device of the selected board into a hub.
    #[tactic(auto, using(crate::proofs::Joining::connect_by))]
    pub(crate) fn connect(&mut self, dev: &str, hub: &str) -> Result<Vec<u8>, Stop>
        requires unspent { self.old.spent ≡ false }
        requires waits { self.old.ended ≡ true }
        ensures { IsRuled (hubs.connect self.old.state dev.now hub.now) result self.old self.new }
    {
        let member = self.joining(dev, hub)?;
        self.lab.connect(member, hub)?;
        Ok(Vec::new(self.alloc))
    }

    /// Shows what a device of the selected board sends.
    pub(crate) fn show(&mut self, dev: &str) -> Result<Vec<u8>, Stop>
        requires unspent { self.old.spent ≡ false }
        requires waits { self.old.ended ≡ true }
        ensures { IsRuled (hubs.show self.old.state dev.now) result self.old self.new }
    {
        let b = self.equipped()?;
        let what = self.entry(b, dev)?;
        let member = self.speaker(b, what)?;
        self.lab.show(member);
        Ok(Vec::new(self.alloc))
    }
}
