//! The devices that boards are made of.
ghost use Rattle.std.specs.Prelude.{◌≡◌, ◌↔◌, IsTrue, map, replicate, All};
ghost use Rattle.dev_core.specs.Stock.{IsFull};
ghost use Rattle.dev_core.specs.Uart.{uart_reset};
ghost use Rattle.dev_core.specs.Can.{can_reset};

use crate::can_state::CanState;
use crate::device::Device;
use crate::state::DevState;
use crate::uart_state::UartState;

/// How many UARTs a full stock has: four for each of 16 boards.
pub const STOCK_UARTS: usize = 64;

/// How many CAN controllers a full stock has: four for each of 16 boards.
pub const STOCK_CANS: usize = 64;

/// How many finishers a full stock has: one for each of 16 boards.
pub const STOCK_FINISHERS: usize = 16;

/// The devices that boards are made of. No bound stands on the type, so that it may hold boxes.
#[derive(Drop)]
pub struct Stock<D> {
    pub uarts: Vec<D>,
    pub cans: Vec<D>,
    pub finishers: Vec<D>,
}

/// Whether this is the reset state of a UART.
fn is_reset_uart(state: &DevState) -> bool
    ensures { IsTrue result ↔ (state.now ≡ DevState.Uart uart_reset) }
{
    match state {
        DevState::Uart(uart) => *uart == UartState::reset(),
        _ => false,
    }
}

/// Whether this is the reset state of a CAN controller.
fn is_reset_can(state: &DevState) -> bool
    ensures { IsTrue result ↔ (state.now ≡ DevState.Can can_reset) }
{
    match state {
        DevState::Can(can) => *can == CanState::reset(),
        _ => false,
    }
}

/// Whether this is the state of a finisher.
fn is_finisher(state: &DevState) -> bool
    ensures { IsTrue result ↔ (state.now ≡ DevState.Finisher) }
{
    matches!(state, DevState::Finisher)
}

/// Whether each device is a UART in its reset state.
fn are_reset_uarts<D: Device>(devices: &[D]) -> bool
    ensures { IsTrue result ↔ All (λ d. D.meaning d ≡ DevState.Uart uart_reset) devices.now }
{
    devices.iter().all(|device| is_reset_uart(&device.state()))
}

/// Whether each device is a CAN controller in its reset state.
fn are_reset_cans<D: Device>(devices: &[D]) -> bool
    ensures { IsTrue result ↔ All (λ d. D.meaning d ≡ DevState.Can can_reset) devices.now }
{
    devices.iter().all(|device| is_reset_can(&device.state()))
}

/// Whether each device is a finisher.
fn are_finishers<D: Device>(devices: &[D]) -> bool
    ensures { IsTrue result ↔ All (λ d. D.meaning d ≡ DevState.Finisher) devices.now }
{
    devices.iter().all(|device| is_finisher(&device.state()))
}

/// Whether there are so many UARTs, each in its reset state.
fn are_so_many_uarts<D: Device>(devices: &[D], count: usize) -> bool
    ensures { IsTrue result ↔
        (map D.meaning devices.now ≡ replicate count (DevState.Uart uart_reset)) }
{
    devices.len() == count && are_reset_uarts(devices)
}

/// Whether there are so many CAN controllers, each in its reset state.
fn are_so_many_cans<D: Device>(devices: &[D], count: usize) -> bool
    ensures { IsTrue result ↔
        (map D.meaning devices.now ≡ replicate count (DevState.Can can_reset)) }
{
    devices.len() == count && are_reset_cans(devices)
}

/// Whether there are so many finishers.
fn are_so_many_finishers<D: Device>(devices: &[D], count: usize) -> bool
    ensures { IsTrue result ↔ (map D.meaning devices.now ≡ replicate count DevState.Finisher) }
{
    devices.len() == count && are_finishers(devices)
}

impl<D: Device> Stock<D> {
    /// Whether there are 64 UARTs, 64 CAN controllers and 16 finishers, each in its reset state.
    pub fn is_full(&self) -> bool
        ensures { IsTrue result ↔ IsFull D.meaning self.now }
    {
        are_so_many_uarts(self.uarts.as_slice(), STOCK_UARTS)
            && are_so_many_cans(self.cans.as_slice(), STOCK_CANS)
            && are_so_many_finishers(self.finishers.as_slice(), STOCK_FINISHERS)
    }
}
