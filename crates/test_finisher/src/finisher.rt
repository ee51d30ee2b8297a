//! The finisher as a device.
ghost use Rattle.std.specs.Prelude.{◌≡◌};
ghost use Rattle.dev_core.specs.Finisher.{finish_of};

use dev_core::{DevState, Device, Effect, Finish, Kind, Payload, Taken};

/// A finisher. It holds nothing.
#[derive(Clone, Copy)]
pub struct Finisher;

/// The address of its one register.
const FINISH: u32 = 0;

/// The low half of the register's word where the test has passed.
const PASS: u16 = 0x5555;

/// And where it has failed, with a code in the upper half.
const FAIL: u16 = 0x3333;

impl Finisher {
    pub fn new() -> Finisher
        ensures { ⟦<Finisher as Device>⟧.meaning result ≡ DevState.Finisher }
    {
        Finisher
    }
}

/// What a store of this word sends.
fn finish(word: u32) -> Effect
    ensures { result ≡ finish_of word }
{
    let code = (word >> 16) as u16;
    match (word & 0xFFFF) as u16 {
        PASS => Effect::Send(Payload::Finish(Finish::Pass)),
        FAIL => Effect::Send(Payload::Finish(Finish::Fail(code))),
        _ => Effect::Quiet,
    }
}

impl Device for Finisher {
    ghost use Rattle.dev_core.specs.declared.state.DevState.TheVariants.{Finisher as finisher_state};

    ghost meaning = { λ _. finisher_state };

    fn kind(&self) -> Kind {
        Kind::Finisher
    }

    fn load(&mut self, _reg: u32, _width: u8) -> u32 {
        0
    }

    fn store(&mut self, reg: u32, _width: u8, value: u32) -> Effect {
        if reg == FINISH {
            finish(value)
        } else {
            Effect::Quiet
        }
    }

    fn take(&mut self, _payload: &Payload) -> Taken {
        Taken::Refused
    }

    fn line(&self) -> bool {
        false
    }

    fn reset(&mut self) {}

    fn state(&self) -> DevState {
        DevState::Finisher
    }

    fn put(&mut self, state: &DevState) -> bool {
        matches!(state, DevState::Finisher)
    }
}
