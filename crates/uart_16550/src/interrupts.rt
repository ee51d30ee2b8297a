//! The interrupts and the interrupt identification register (PC16550D data sheet, section 8.6).
ghost use Rattle.std.specs.Prelude.{◌≡◌, ◌≤◌};
ghost use Rattle.dev_core.specs.Uart.{cause, iir, uart_line};

use crate::bits::{ELSI, ERBFI, ETBEI};
use dev_core::{UartState, is_set};

pub const NO_INTERRUPT: u8 = 0x01;

pub const LINE_STATUS: u8 = 0x06;

pub const RECEIVED_DATA: u8 = 0x04;

pub const CHARACTER_TIMEOUT: u8 = 0x0C;

pub const THR_EMPTY: u8 = 0x02;

/// Bits 6 and 7 of the register, which tell that the FIFOs are on.
const FIFOS_ON: u8 = 0xC0;

/// The interrupt that is told, by priority.
pub fn cause(uart: &UartState) -> u8
    ensures value { result ≡ cause uart.now }
    ensures fits { result ≤ 0x0C }
{
    let held = uart.received.len();
    let is_data_enabled = is_set(uart.ier, ERBFI);
    if is_set(uart.ier, ELSI) && uart.oe {
        LINE_STATUS
    } else if is_data_enabled && held >= usize::from(uart.trigger) {
        RECEIVED_DATA
    } else if is_data_enabled && uart.fifos && held > 0 {
        CHARACTER_TIMEOUT
    } else if is_set(uart.ier, ETBEI) && uart.thr {
        THR_EMPTY
    } else {
        NO_INTERRUPT
    }
}

/// The interrupt identification register.
pub fn identification(uart: &UartState) -> u8
    ensures { result ≡ iir uart.now }
{
    let fifos = if uart.fifos { FIFOS_ON } else { 0 };
    cause(uart) + fifos
}

/// Whether some interrupt is there.
pub fn is_pending(uart: &UartState) -> bool
    ensures { result ≡ uart_line uart.now }
{
    cause(uart) != NO_INTERRUPT
}
