//! The trait by which a board uses its devices.
ghost use Rattle.std.specs.Prelude.{◌≡◌, ◌↔◌, IsTrue, true, false};
ghost use Rattle.dev_core.specs.declared.state.DevState.{DevState};
ghost use Rattle.dev_core.specs.Device.{
  dev_line,
  dev_load,
  dev_reset,
  dev_store,
  dev_take,
  kind_of,
  IsValid,
};

use crate::kind::Kind;
use crate::payload::{Effect, Payload, Taken};
use crate::state::DevState;

/// A device, which contracts see as its state. No call takes memory.
pub trait Device: Drop {
    ghost meaning: { Self → DevState };

    fn kind(&self) -> Kind
        ensures { result ≡ kind_of (meaning self.now) };

    /// Loads the register `reg`, by an access of `width` bytes.
    fn load(&mut self, reg: u32, width: u8) -> u32
        ensures answer { result ≡ (dev_load (meaning self.old) reg width).answer }
        ensures after { meaning self.new ≡ (dev_load (meaning self.old) reg width).after }
        ensures kind { kind_of (meaning self.new) ≡ kind_of (meaning self.old) }
        ensures valid { IsValid (meaning self.new) };

    /// Stores a value in the register `reg`, by an access of `width` bytes.
    fn store(&mut self, reg: u32, width: u8, value: u32) -> Effect
        ensures answer { result ≡ (dev_store (meaning self.old) reg width value).answer }
        ensures after { meaning self.new ≡ (dev_store (meaning self.old) reg width value).after }
        ensures kind { kind_of (meaning self.new) ≡ kind_of (meaning self.old) }
        ensures valid { IsValid (meaning self.new) };

    /// Hands the device what another one sent.
    fn take(&mut self, payload: &Payload) -> Taken
        ensures answer { result ≡ (dev_take (meaning self.old) payload.now).answer }
        ensures after { meaning self.new ≡ (dev_take (meaning self.old) payload.now).after }
        ensures refused { result ≡ Taken.Refused → meaning self.new ≡ meaning self.old }
        ensures kind { kind_of (meaning self.new) ≡ kind_of (meaning self.old) }
        ensures valid { IsValid (meaning self.new) };

    /// Whether the interrupt line is up.
    fn line(&self) -> bool
        ensures { result ≡ dev_line (meaning self.now) };

    /// Brings the device into its reset state.
    fn reset(&mut self)
        ensures after { meaning self.new ≡ dev_reset (meaning self.old) }
        ensures kind { kind_of (meaning self.new) ≡ kind_of (meaning self.old) }
        ensures valid { IsValid (meaning self.new) };

    fn state(&self) -> DevState
        ensures value { result ≡ meaning self.now }
        ensures valid { IsValid result };

    /// Puts the device into this state, if it is valid and of the device's kind. Else the answer is
    /// false.
    fn put(&mut self, state: &DevState) -> bool
        ensures fits { IsTrue result ↔
            ((kind_of state.now ≡ kind_of (meaning self.old)) × IsValid state.now) }
        ensures put { result ≡ true → meaning self.new ≡ state.now }
        ensures refused { result ≡ false → meaning self.new ≡ meaning self.old }
        ensures kind { kind_of (meaning self.new) ≡ kind_of (meaning self.old) }
        ensures valid { IsValid (meaning self.new) };
}

/// A device in its box is a device.
impl Device for Box<dyn Device + Send> {
    ghost meaning = { λ b. (Device-box b).meaning b.value };

    fn kind(&self) -> Kind {
        (**self).kind()
    }

    fn load(&mut self, reg: u32, width: u8) -> u32 {
        (**self).load(reg, width)
    }

    fn store(&mut self, reg: u32, width: u8, value: u32) -> Effect {
        (**self).store(reg, width, value)
    }

    fn take(&mut self, payload: &Payload) -> Taken {
        (**self).take(payload)
    }

    fn line(&self) -> bool {
        (**self).line()
    }

    fn reset(&mut self) {
        (**self).reset()
    }

    fn state(&self) -> DevState {
        (**self).state()
    }

    fn put(&mut self, state: &DevState) -> bool {
        (**self).put(state)
    }
}
