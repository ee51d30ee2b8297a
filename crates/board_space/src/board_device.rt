//! A device of a board.
ghost use Rattle.std.specs.Prelude.{◌≡◌, ◌%◌, ◌^◌, ◌<◌, true, IsTrue};
ghost use Rattle.sys_bus.specs.Region.{IsWidth};
ghost use Rattle.dev_core.specs.Device.{dev_line, dev_take, kind_of, IsValid};
ghost use Rattle.board_space.specs.Changes.{is_shown_kind};
ghost use Rattle.board_space.specs.Space.{register_load, register_store};
ghost use Rattle.board_space.specs.New.{hidden, reset_device};
ghost use Rattle.board_space.specs.Parts.{MayBeShown};
ghost use Rattle.board_space.specs.Inner.Remembers.{still};

use crate::remembered::{Remembered, forget_if_changed};
use dev_core::{DevState, Device, Effect, Payload, Taken};
use std::marker::Model;

/// The lowest 1, 2 or 4 bytes of what a device answers.
#[inline]
fn cut(answer: u32, width: u8) -> u32
    requires { IsWidth width }
    ensures value { result ≡ answer % 256 ^ width }
    ensures fits { result < 256 ^ width }
{
    match width {
        1 => answer % 0x100,
        2 => answer % 0x1_0000,
        _ => answer,
    }
}

/// A device of a board, and whether it is shown.
#[derive(Drop)]
pub struct BoardDevice<D: Device> {
    device: D,
    shown: bool,
    /// Whether the interrupt line is up, as long as nothing was done to the device since it was asked.
    up: Option<bool>,
}

impl<D: Device> Model for BoardDevice<D> {
    ghost use Rattle.dev_core.specs.Device.{IsValid, dev_line, kind_of};
    ghost use Rattle.board_space.specs.Space.{BoardDevice as Seen};
    ghost use Rattle.board_space.specs.Parts.{MayBeShown};
    ghost use Rattle.board_space.specs.Inner.Remembers.{IsLine};

    ghost Value = { Seen };

    ghost view = { λ f. record { state = D.meaning f.device; shown = f.shown } };

    ghost invariant = { λ f.
        IsValid (D.meaning f.device)
        × IsLine f.up (dev_line (D.meaning f.device))
        × MayBeShown (kind_of (D.meaning f.device)) f.shown };
}

impl<D: Device> BoardDevice<D> {
    /// A device that is not shown.
    pub fn new(device: D) -> BoardDevice<D>
        ensures { result ≡ hidden (D.meaning device) }
    {
        // a state that is asked for is valid
        let _state = device.state();
        BoardDevice {
            device,
            shown: false,
            up: None,
        }
    }

    pub fn is_shown(&self) -> bool
        ensures value { result ≡ self.now.shown }
        ensures kind { MayBeShown (kind_of self.now.state) result }
    {
        self.shown
    }

    /// Shows the device.
    pub fn show(&mut self)
        requires { IsTrue (is_shown_kind (kind_of self.old.state)) }
        ensures after { self.new ≡ record self.old { shown = true } }
        ensures kind { kind_of self.new.state ≡ kind_of self.old.state }
        ensures valid { IsValid self.new.state }
    {
        self.shown = true;
    }

    /// Loads a register by an access of `width` bytes, or gives 0 where the access is at none.
    pub fn load(&mut self, register: Option<u32>, width: u8) -> u32
        requires { IsWidth width }
        ensures answer { result ≡ (register_load self.old.state width register).answer }
        ensures after { self.new ≡ record self.old {
          state = (register_load self.old.state width register).after;
        } }
        ensures fits { result < 256 ^ width }
        ensures kind { kind_of self.new.state ≡ kind_of self.old.state }
        ensures valid { IsValid self.new.state }
    {
        self.up = None;
        match register {
            Some(register) => cut(self.device.load(register, width), width),
            None => 0,
        }
    }

    /// Stores a value of `width` bytes in a register, or does nothing where the access is at none.
    pub fn store(&mut self, register: Option<u32>, width: u8, value: u32) -> Effect
        ensures answer { result ≡ (register_store self.old.state width value register).answer }
        ensures after { self.new ≡ record self.old {
          state = (register_store self.old.state width value register).after;
        } }
        ensures kind { kind_of self.new.state ≡ kind_of self.old.state }
        ensures valid { IsValid self.new.state }
    {
        self.up = None;
        match register {
            Some(register) => self.device.store(register, width, value),
            None => Effect::Quiet,
        }
    }

    /// Loads a register as `load` does. What is remembered of the lines is forgotten where the
    /// device's line is no longer as it was.
    #[inline(always)]
    pub fn load_wired(
        &mut self,
        remembered: &mut Option<Remembered>,
        register: Option<u32>,
        width: u8,
    ) -> u32
        requires { IsWidth width }
        ensures answer { result ≡ (register_load self.old.state width register).answer }
        ensures after { self.new ≡ record self.old {
          state = (register_load self.old.state width register).after;
        } }
        ensures lines { remembered.new ≡
            still remembered.old (dev_line self.old.state) (dev_line self.new.state) }
        ensures fits { result < 256 ^ width }
        ensures kind { kind_of self.new.state ≡ kind_of self.old.state }
        ensures valid { IsValid self.new.state }
    {
        if remembered.is_none() {
            return self.load(register, width);
        }
        let before = self.line_now();
        let value = self.load(register, width);
        forget_if_changed(remembered, before, self.line_now());
        value
    }

    /// Stores in a register as `store` does. What is remembered of the lines is forgotten where the
    /// device's line is no longer as it was.
    #[inline(always)]
    pub fn store_wired(
        &mut self,
        remembered: &mut Option<Remembered>,
        register: Option<u32>,
        width: u8,
        value: u32,
    ) -> Effect
        ensures answer { result ≡ (register_store self.old.state width value register).answer }
        ensures after { self.new ≡ record self.old {
          state = (register_store self.old.state width value register).after;
        } }
        ensures lines { remembered.new ≡
            still remembered.old (dev_line self.old.state) (dev_line self.new.state) }
        ensures kind { kind_of self.new.state ≡ kind_of self.old.state }
        ensures valid { IsValid self.new.state }
    {
        if remembered.is_none() {
            return self.store(register, width, value);
        }
        let before = self.line_now();
        let effect = self.store(register, width, value);
        forget_if_changed(remembered, before, self.line_now());
        effect
    }

    /// Hands the device what another one sent.
    pub fn take(&mut self, payload: &Payload) -> Taken
        ensures answer { result ≡ (dev_take self.old.state payload.now).answer }
        ensures after { self.new ≡ record self.old {
          state = (dev_take self.old.state payload.now).after;
        } }
        ensures kind { kind_of self.new.state ≡ kind_of self.old.state }
        ensures valid { IsValid self.new.state }
    {
        self.up = None;
        self.device.take(payload)
    }

    /// Brings the device into its reset state. It stays shown.
    pub fn reset(&mut self)
        ensures after { self.new ≡ reset_device self.old }
        ensures kind { kind_of self.new.state ≡ kind_of self.old.state }
        ensures valid { IsValid self.new.state }
    {
        self.up = None;
        self.device.reset();
    }

    pub fn state(&self) -> DevState
        ensures value { result ≡ self.now.state }
        ensures valid { IsValid result }
    {
        self.device.state()
    }

    /// Puts the device back into a state that it had.
    pub fn put_back(&mut self, state: &DevState)
        requires kind { kind_of state.now ≡ kind_of self.old.state }
        requires valid { IsValid state.now }
        ensures after { self.new ≡ record self.old { state = state.now } }
        ensures kind { kind_of self.new.state ≡ kind_of self.old.state }
        ensures valid { IsValid self.new.state }
    {
        self.up = None;
        let _put = self.device.put(state);
    }

    /// Brings the device to a state of its kind, shown or not.
    pub fn bring_to(&mut self, state: &DevState, shown: bool)
        requires kind { kind_of state.now ≡ kind_of self.old.state }
        requires valid { IsValid state.now }
        requires shown { MayBeShown (kind_of state.now) shown }
        ensures { self.new ≡ record { state = state.now; shown = shown } }
    {
        self.up = None;
        let _put = self.device.put(state);
        self.shown = shown;
    }

    /// Whether the interrupt line is up.
    pub fn line(&self) -> bool
        ensures { result ≡ dev_line self.now.state }
    {
        self.device.line()
    }

    /// The same. The device is asked once, until something is done to it.
    pub fn line_now(&mut self) -> bool
        ensures line { result ≡ dev_line self.old.state }
        ensures same { self.new ≡ self.old }
    {
        if let Some(up) = self.up {
            return up;
        }
        let up = self.device.line();
        self.up = Some(up);
        up
    }
}
