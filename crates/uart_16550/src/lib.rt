//! The UART of a board: the PC16550D with its receiver FIFO. It sends at once; it has no baud rate,
//! parity, framing, break, modem lines or loopback.
#![tactic(auto)]

mod bits;
mod interrupts;
mod receiver;
mod registers;
mod uart;

pub use uart::Uart;
