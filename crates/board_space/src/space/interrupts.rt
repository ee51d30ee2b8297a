//! The timer and the interrupt controller of a board, each of which it may have.
ghost use Rattle.std.specs.Prelude.{◌≡◌, ◌<◌, ◌^◌, option_map};
ghost use Rattle.sys_bus.specs.Region.{IsWidth};
ghost use Rattle.board_space.specs.Lines.{sampled_by};
ghost use Rattle.board_space.specs.New.{reset_timer, reset_controller, size_of};
ghost use Rattle.board_space.specs.Space.{timer_load, timer_stored};
ghost use Rattle.board_space.specs.Space.{controller_load, controller_loaded, controller_stored};
ghost use Rattle.board_space.specs.Fit.{IsStateOf};
ghost use Rattle.board_space.specs.BoardState.{controller_to, space_to, timer_to};
ghost use Rattle.board_space.specs.Valid.{IsStateFor};

use super::Space;
use crate::state::BoardState;
use clint::{Clint, ClintState};
use dev_core::Device;
use lab_num::Micros;
use plic::{Plic, PlicState};

fn load_timer(timer: &Option<Clint>, now: Micros, at: u32, width: u8) -> u32
    requires { IsWidth width }
    ensures value { result ≡ timer_load timer.now now.0 at width }
    ensures fits { result < 256 ^ width }
{
    match timer {
        Some(timer) => timer.load(at, width, now),
        None => 0,
    }
}

fn store_timer(timer: &mut Option<Clint>, now: Micros, at: u32, width: u8, value: u32)
    ensures after { timer.new ≡ timer_stored timer.old now.0 at width value }
    ensures kept { option_map (λ c. c.frequency) timer.new ≡ option_map (λ c. c.frequency) timer.old }
{
    if let Some(timer) = timer {
        timer.store(at, width, value, now);
    }
}

fn reset_timer(timer: &mut Option<Clint>)
    ensures after { timer.new ≡ option_map reset_timer timer.old }
    ensures kept { option_map (λ c. c.frequency) timer.new ≡ option_map (λ c. c.frequency) timer.old }
{
    if let Some(timer) = timer {
        timer.reset();
    }
}

fn load_controller(controller: &mut Option<Plic>, at: u32, width: u8) -> u32
    requires { IsWidth width }
    ensures value { result ≡ controller_load controller.old at width }
    ensures after { controller.new ≡ controller_loaded controller.old at width }
    ensures kept { option_map size_of controller.new ≡ option_map size_of controller.old }
    ensures fits { result < 256 ^ width }
{
    match controller {
        Some(controller) => controller.load(at, width),
        None => 0,
    }
}

fn store_controller(controller: &mut Option<Plic>, at: u32, width: u8, value: u32)
    ensures after { controller.new ≡ controller_stored controller.old at width value }
    ensures kept { option_map size_of controller.new ≡ option_map size_of controller.old }
{
    if let Some(controller) = controller {
        controller.store(at, width, value);
    }
}

/// Samples the lines of these sources.
pub(super) fn sample(controller: &mut Option<Plic>, sources: u128)
    ensures after { controller.new ≡ sampled_by controller.old sources }
    ensures kept { option_map size_of controller.new ≡ option_map size_of controller.old }
{
    if let Some(controller) = controller {
        controller.sample(sources);
    }
}

/// Puts an interrupt controller back into a state that it had.
fn put_back(controller: &mut Option<Plic>, state: &Option<PlicState>)
    requires { IsStateOf controller.old state.now }
    ensures after { controller.new ≡ controller_to controller.old state.now }
    ensures kept { option_map size_of controller.new ≡ option_map size_of controller.old }
{
    if let (Some(controller), Some(state)) = (controller, state) {
        let _put = controller.put(state);
    }
}

/// Brings a timer to a state.
fn bring_to(timer: &mut Option<Clint>, state: &Option<ClintState>)
    ensures after { timer.new ≡ timer_to timer.old state.now }
    ensures kept { option_map (λ c. c.frequency) timer.new ≡ option_map (λ c. c.frequency) timer.old }
{
    if let (Some(timer), Some(state)) = (timer, state) {
        timer.put(state);
    }
}

fn reset_controller(controller: &mut Option<Plic>)
    ensures after { controller.new ≡ option_map reset_controller controller.old }
    ensures kept { option_map size_of controller.new ≡ option_map size_of controller.old }
{
    if let Some(controller) = controller {
        controller.reset();
    }
}

impl<D: Device> Space<D> {
    pub fn load_timer(&self, now: Micros, at: u32, width: u8) -> u32
        requires { IsWidth width }
        ensures value { result ≡ timer_load self.now.timer now.0 at width }
        ensures fits { result < 256 ^ width }
    {
        load_timer(&self.timer, now, at, width)
    }

    pub fn store_timer(&mut self, now: Micros, at: u32, width: u8, value: u32)
        ensures { self.new ≡ record self.old {
          timer = timer_stored self.old.timer now.0 at width value;
        } }
    {
        self.remembered = None;
        store_timer(&mut self.timer, now, at, width, value);
    }

    pub fn load_controller(&mut self, at: u32, width: u8) -> u32
        requires { IsWidth width }
        ensures value { result ≡ controller_load self.old.controller at width }
        ensures after { self.new ≡ record self.old {
          controller = controller_loaded self.old.controller at width;
        } }
        ensures fits { result < 256 ^ width }
    {
        self.remembered = None;
        load_controller(&mut self.controller, at, width)
    }

    pub fn store_controller(&mut self, at: u32, width: u8, value: u32)
        ensures { self.new ≡ record self.old {
          controller = controller_stored self.old.controller at width value;
        } }
    {
        self.remembered = None;
        store_controller(&mut self.controller, at, width, value);
    }

    /// The state of the interrupt controller, where there is one.
    pub fn controller_state(&self) -> Option<PlicState>
        ensures value { result ≡ option_map (λ c. c.state) self.now.controller }
        ensures valid { IsStateOf self.now.controller result }
    {
        Some(self.controller.as_ref()?.state())
    }

    /// Puts the interrupt controller back into a state that it had.
    pub fn put_controller(&mut self, state: &Option<PlicState>)
        requires { IsStateOf self.old.controller state.now }
        ensures { self.new ≡ record self.old { controller = controller_to self.old.controller state.now } }
    {
        self.remembered = None;
        put_back(&mut self.controller, state);
    }

    /// The state of the timer, where there is one.
    pub fn timer_state(&self) -> Option<ClintState>
        ensures { result ≡ option_map (λ c. c.state) self.now.timer }
    {
        Some(self.timer.as_ref()?.state())
    }

    /// Brings the timer to a state.
    fn put_timer(&mut self, state: &Option<ClintState>)
        ensures { self.new ≡ record self.old { timer = timer_to self.old.timer state.now } }
    {
        self.remembered = None;
        bring_to(&mut self.timer, state);
    }

    /// Brings all but the memories to a state.
    pub fn bring_to(&mut self, s: &BoardState)
        requires { IsStateFor self.old.plan s.now }
        ensures { self.new ≡ space_to self.old s.now }
    {
        let _plan = self.plan(); // the interrupt controller is of its size
        self.put_timer(&s.clint);
        self.put_controller(&s.plic);
        self.put_devices(s.devices.items(), s.shown.items());
    }

    /// Brings the timer and the interrupt controller into their reset states.
    pub(super) fn reset_interrupts(&mut self)
        ensures { self.new ≡ record self.old {
          timer = option_map reset_timer self.old.timer;
          controller = option_map reset_controller self.old.controller;
        } }
    {
        self.remembered = None;
        reset_timer(&mut self.timer);
        reset_controller(&mut self.controller);
    }
}
