//! The state of a UART.
ghost use Rattle.std.specs.Prelude.{◌≡◌, ◌↔◌, IsTrue};
ghost use Rattle.dev_core.specs.Uart.{uart_reset, capacity, is_trigger, IsUartState};

use crate::byte_row::ByteRow;

/// All that a UART holds.
#[derive(Clone, Copy, PartialEq, Eq)]
pub struct UartState {
    /// Interrupt enable, of which bits 4 to 7 are 0.
    pub ier: u8,
    /// Line control.
    pub lcr: u8,
    /// Modem control, of which bits 5 to 7 are 0.
    pub mcr: u8,
    /// Scratch.
    pub scr: u8,
    /// The low byte of the divisor latch.
    pub dll: u8,
    /// The high byte of the divisor latch.
    pub dlm: u8,
    /// The FIFOs are on.
    pub fifos: bool,
    /// So many received bytes make the received data interrupt: 1, 4, 8 or 14, and 1 with the
    /// FIFOs off.
    pub trigger: u8,
    /// The received bytes that were not read yet: at most 16, and at most 1 with the FIFOs off.
    pub received: ByteRow,
    /// A received byte was lost since the line status register was last read.
    pub oe: bool,
    /// The transmitter holding register became empty, and no load has told it yet.
    pub thr: bool,
}

impl UartState {
    /// The state after a reset.
    pub fn reset() -> UartState
        ensures { result ≡ uart_reset }
    {
        UartState {
            ier: 0,
            lcr: 0,
            mcr: 0,
            scr: 0,
            dll: 0,
            dlm: 0,
            fifos: false,
            trigger: 1,
            received: ByteRow::new(),
            oe: false,
            thr: false,
        }
    }

    /// How many received bytes there is room for.
    pub fn capacity(&self) -> usize
        ensures { result ≡ capacity self.now.fifos }
    {
        if self.fifos { 16 } else { 1 }
    }

    fn has_valid_trigger(&self) -> bool
        ensures { result ≡ is_trigger self.now.fifos self.now.trigger }
    {
        if self.fifos {
            matches!(self.trigger, 1 | 4 | 8 | 14)
        } else {
            self.trigger == 1
        }
    }

    /// Whether a UART can have this state.
    pub fn is_valid(&self) -> bool
        ensures { IsTrue result ↔ IsUartState self.now }
    {
        self.ier <= 0x0F
            && self.mcr <= 0x1F
            && self.has_valid_trigger()
            && self.received.len() <= self.capacity()
    }
}
