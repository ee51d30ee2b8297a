//! The devices of a board.
ghost use Rattle.std.specs.Prelude.{◌≡◌, ◌<◌, ◌^◌, ◌⊎◌, length, map, true, All, IfOk, IsTrue};
ghost use Rattle.dev_core.specs.Device.{dev_take, kind_of, IsValid};
ghost use Rattle.sys_bus.specs.Region.{IsWidth};
ghost use Rattle.board_space.specs.Space.{device_at, with_device, with_state, register_at, register_of, device_load};
ghost use Rattle.board_space.specs.Space.{device_store};
ghost use Rattle.board_space.specs.BoardState.{devices_in};
ghost use Rattle.board_space.specs.Changes.{is_shown_kind};
ghost use Rattle.board_space.specs.Parts.{AreDevices, AreShown, MayBeShown};
ghost use Rattle.board_space.specs.New.{reset_device, reset_space};

use super::Space;
use crate::board_device::BoardDevice;
use dev_core::{DevState, Device, Effect, Payload, Taken};
use lab_num::NoMemory;
use std::alloc::Global;

/// The register at a place of a device whose registers begin 1 or 4 bytes apart.
fn register_at(step: u8, at: u32) -> Option<u32>
    requires { (step ≡ 1) ⊎ (step ≡ 4) }
    ensures { result ≡ register_at step at }
{
    match step {
        1 => Some(at),
        _ if at % 4 == 0 => Some(at / 4),
        _ => None,
    }
}

/// Devices are shown only where they may be.
fn shown_devices_law<D: Device>(devices: &[BoardDevice<D>])
    ensures { All (λ f. MayBeShown (kind_of f.state) f.shown) devices.now }
{
    for device in devices {
        let _shown = device.is_shown();
    }
}

/// Brings each device to its state, shown or not.
fn bring_all_to<D: Device>(devices: &mut [BoardDevice<D>], states: &[DevState], shown: &[bool])
    requires devices { AreDevices (map (λ f. kind_of f.state) devices.old) states.now }
    requires shown { AreShown (map (λ f. kind_of f.state) devices.old) shown.now }
    ensures { devices.new ≡ devices_in states.now shown.now }
{
    for (dev, device) in devices.iter_mut().enumerate() {
        device.bring_to(&states[dev], shown[dev]);
    }
}

impl<D: Device> Space<D> {
    /// The register at a place of a device, if there is one.
    fn register_of(&self, dev: u8, at: u32) -> Option<u32>
        ensures { result ≡ register_of self.now dev at }
    {
        register_at(self.regions.step_of(dev), at)
    }

    pub fn load_device(&mut self, dev: u8, at: u32, width: u8) -> u32
        requires width { IsWidth width }
        requires dev { dev < length self.old.devices }
        ensures answer { result ≡ (device_load self.old dev at width).answer }
        ensures after { self.new ≡
            with_state self.old dev (device_load self.old dev at width).after }
        ensures fits { result < 256 ^ width }
    {
        let register = self.register_of(dev, at);
        let device = &mut self.devices[usize::from(dev)];
        device.load_wired(&mut self.remembered, register, width)
    }

    #[inline(always)]
    pub fn store_device(&mut self, dev: u8, at: u32, width: u8, value: u32) -> Effect
        requires { dev < length self.old.devices }
        ensures answer { result ≡ (device_store self.old dev at width value).answer }
        ensures after { self.new ≡
            with_state self.old dev (device_store self.old dev at width value).after }
    {
        let register = self.register_of(dev, at);
        let device = &mut self.devices[usize::from(dev)];
        device.store_wired(&mut self.remembered, register, width, value)
    }

    /// Hands a device what another one sent.
    pub fn take(&mut self, dev: u8, payload: &Payload) -> Taken
        requires { dev < length self.old.devices }
        ensures answer { result ≡ (dev_take (device_at self.old dev).state payload.now).answer }
        ensures after { self.new ≡
            with_state self.old dev (dev_take (device_at self.old dev).state payload.now).after }
    {
        self.remembered = None;
        self.devices[usize::from(dev)].take(payload)
    }

    pub fn is_shown(&self, dev: u8) -> bool
        requires { dev < length self.now.devices }
        ensures { result ≡ (device_at self.now dev).shown }
    {
        self.devices[usize::from(dev)].is_shown()
    }

    /// Shows a UART or a CAN controller.
    pub fn show(&mut self, dev: u8)
        requires dev { dev < length self.old.devices }
        requires kind { IsTrue (is_shown_kind (kind_of (device_at self.old dev).state)) }
        ensures { self.new ≡
            with_device self.old dev (record (device_at self.old dev) { shown = true }) }
    {
        self.remembered = None;
        self.devices[usize::from(dev)].show();
    }

    /// At every moment a device that is shown is a UART or a CAN controller.
    pub fn shown_devices_law(&self)
        ensures { All (λ f. MayBeShown (kind_of f.state) f.shown) self.now.devices }
    {
        shown_devices_law(&self.devices);
    }

    /// The states of the devices.
    pub fn states(&self, alloc: Global) -> Result<Vec<DevState>, NoMemory>
        ensures { IfOk result (λ states. states.items ≡ map (λ f. f.state) self.now.devices) }
    {
        let mut states = Vec::new(alloc);
        for device in &self.devices {
            states.push(device.state())?;
        }
        Ok(states)
    }

    /// Which devices are shown.
    pub fn shown(&self, alloc: Global) -> Result<Vec<bool>, NoMemory>
        ensures { IfOk result (λ shown. shown.items ≡ map (λ f. f.shown) self.now.devices) }
    {
        let mut shown = Vec::new(alloc);
        for device in &self.devices {
            shown.push(device.is_shown())?;
        }
        Ok(shown)
    }

    /// Brings each device to its state, shown or not.
    pub fn put_devices(&mut self, states: &[DevState], shown: &[bool])
        requires devices { AreDevices self.old.plan.kinds states.now }
        requires shown { AreShown self.old.plan.kinds shown.now }
        ensures { self.new ≡ record self.old { devices = devices_in states.now shown.now } }
    {
        self.remembered = None;
        bring_all_to(&mut self.devices, states, shown);
    }

    pub fn state(&self, dev: u8) -> DevState
        requires { dev < length self.now.devices }
        ensures value { result ≡ (device_at self.now dev).state }
        ensures valid { IsValid result }
    {
        self.devices[usize::from(dev)].state()
    }

    /// Puts a device back into a state that it had.
    pub fn put_back(&mut self, dev: u8, state: &DevState)
        requires dev { dev < length self.old.devices }
        requires kind { kind_of state.now ≡ kind_of (device_at self.old dev).state }
        requires valid { IsValid state.now }
        ensures { self.new ≡ with_state self.old dev state.now }
    {
        self.remembered = None;
        self.devices[usize::from(dev)].put_back(state);
    }

    /// Brings each device into its reset state. Those that are shown stay so.
    #[tactic(auto, using(std::proofs::lemmas::List::Edits::map_over_more))]
    fn reset_devices(&mut self)
        ensures { self.new ≡ record self.old { devices = map reset_device self.old.devices } }
    {
        self.remembered = None;
        for device in self.devices.iter_mut() {
            device.reset();
        }
    }

    /// Brings all but the memories into their reset states.
    pub fn reset(&mut self)
        ensures { self.new ≡ reset_space self.old }
    {
        self.reset_interrupts();
        self.reset_devices();
    }
}
