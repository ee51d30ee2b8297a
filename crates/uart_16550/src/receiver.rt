//! The receiver: its FIFO, the FIFO control register and the line status register (PC16550D data
//! sheet, sections 8.4 and 8.5).
ghost use Rattle.std.specs.Prelude.{◌≡◌, ◌≢◌, IsTrue, true};
ghost use Rattle.dev_core.specs.Uart.{
  fcr_stored,
  is_trigger,
  IsUartState,
  lsr,
  rbr,
  rbr_loaded,
  trigger_level,
  uart_receive,
};

use crate::bits::{FIFO_ENABLE, RECEIVER_RESET, TRANSMITTER_EMPTY};
use dev_core::{ByteRow, Taken, UartState, is_set};

/// The trigger level that bits 7 and 6 of the FIFO control register choose.
fn trigger_level(choice: u8) -> u8
    ensures value { result ≡ trigger_level choice }
    ensures valid { IsTrue (is_trigger true result) }
{
    match choice {
        0 => 1,
        1 => 4,
        2 => 8,
        _ => 14,
    }
}

/// Stores the FIFO control register.
pub fn store_control(uart: &mut UartState, byte: u8)
    requires { IsUartState uart.old }
    ensures after { uart.new ≡ fcr_stored uart.old byte }
    ensures valid { IsUartState uart.new }
{
    let on = is_set(byte, FIFO_ENABLE);
    if on != uart.fifos || (on && is_set(byte, RECEIVER_RESET)) {
        uart.received = ByteRow::new();
    }
    uart.fifos = on;
    uart.trigger = if on { trigger_level(byte >> 6) } else { 1 };
}

/// Takes the oldest received byte out; 0 if there is none.
pub fn load_data(uart: &mut UartState) -> u8
    requires { IsUartState uart.old }
    ensures value { result ≡ rbr uart.old }
    ensures after { uart.new ≡ rbr_loaded uart.old }
    ensures valid { IsUartState uart.new }
{
    uart.received.pop_first().unwrap_or(0)
}

/// The line status register.
pub fn line_status(uart: &UartState) -> u8
    ensures { result ≡ lsr uart.now }
{
    let is_ready = !uart.received.is_empty();
    TRANSMITTER_EMPTY + u8::from(is_ready) + (u8::from(uart.oe) << 1)
}

/// Takes a byte that has arrived.
#[tactic(auto, unfolding(dev_core::specs::Uart::uart_receive))]
pub fn receive(uart: &mut UartState, byte: u8) -> Taken
    requires { IsUartState uart.old }
    ensures answer { result ≡ (uart_receive uart.old byte).answer }
    ensures after { uart.new ≡ (uart_receive uart.old byte).after }
    ensures taken { result ≢ Taken.Refused }
    ensures valid { IsUartState uart.new }
{
    if uart.received.len() < uart.capacity() {
        uart.received.push(byte);
        return Taken::Kept;
    }
    if !uart.fifos {
        uart.received = ByteRow::of(&[byte]);
    }
    uart.oe = true;
    Taken::Overrun
}
