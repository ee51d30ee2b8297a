//! The UART as a device.
ghost use Rattle.std.specs.Prelude.{◌≡◌};
ghost use Rattle.dev_core.specs.Uart.{
  ier_stored,
  iir,
  iir_loaded,
  is_divisor_shown,
  IsUartState,
  lsr,
  lsr_loaded,
  uart_load,
  uart_reset,
  uart_store_byte,
};

use crate::bits::{DLAB, ETBEI, MODEM_READY};
use crate::interrupts::{THR_EMPTY, cause, identification, is_pending};
use crate::receiver::{line_status, load_data, receive, store_control};
use crate::registers::*;
use dev_core::{DevState, Device, Effect, Kind, Payload, Taken, UartState, is_set};
use std::marker::Model;

/// A UART, which contracts see as its state.
#[derive(Drop)]
pub struct Uart {
    state: UartState,
}

impl Model for Uart {
    ghost use Rattle.dev_core.specs.declared.uart_state.UartState.{UartState};
    ghost use Rattle.dev_core.specs.Uart.{IsUartState};

    ghost Value = { UartState };

    ghost view = { λ u. u.state };

    ghost invariant = { λ u. IsUartState u.state };
}

impl Uart {
    /// A UART in its reset state.
    pub fn new() -> Uart
        ensures { result ≡ uart_reset }
    {
        Uart {
            state: UartState::reset(),
        }
    }

    /// Whether the divisor latch is in the place of registers 0 and 1.
    fn is_divisor_shown(&self) -> bool
        ensures { result ≡ is_divisor_shown self.now }
    {
        is_set(self.state.lcr, DLAB)
    }

    /// The interrupt identification register. What it tells of an empty THR is told once.
    fn load_identification(&mut self) -> u8
        ensures value { result ≡ iir self.old }
        ensures after { self.new ≡ iir_loaded self.old }
        ensures valid { IsUartState self.new }
    {
        let value = identification(&self.state);
        if cause(&self.state) == THR_EMPTY {
            self.state.thr = false;
        }
        value
    }

    /// The line status register. What it tells of a lost byte is told once.
    fn load_line_status(&mut self) -> u8
        ensures value { result ≡ lsr self.old }
        ensures after { self.new ≡ lsr_loaded self.old }
        ensures valid { IsUartState self.new }
    {
        let value = line_status(&self.state);
        self.state.oe = false;
        value
    }

    /// Stores the interrupt enable register. THR is empty when its interrupt is turned on.
    fn store_interrupt_enable(&mut self, byte: u8)
        ensures after { self.new ≡ ier_stored self.old byte }
        ensures valid { IsUartState self.new }
    {
        if is_set(byte, ETBEI) && !is_set(self.state.ier, ETBEI) {
            self.state.thr = true;
        }
        self.state.ier = byte & 0x0F;
    }

    #[tactic(auto, unfolding(dev_core::specs::Uart::uart_load))]
    fn load_byte(&mut self, reg: u32) -> u8
        ensures answer { result ≡ (uart_load self.old reg).answer }
        ensures after { self.new ≡ (uart_load self.old reg).after }
        ensures valid { IsUartState self.new }
    {
        match (reg, self.is_divisor_shown()) {
            (DATA, false) => load_data(&mut self.state),
            (INTERRUPT_ENABLE, false) => self.state.ier,
            (DIVISOR_LOW, true) => self.state.dll,
            (DIVISOR_HIGH, true) => self.state.dlm,
            (INTERRUPT_IDENTIFICATION, _) => self.load_identification(),
            (LINE_CONTROL, _) => self.state.lcr,
            (MODEM_CONTROL, _) => self.state.mcr,
            (LINE_STATUS, _) => self.load_line_status(),
            (MODEM_STATUS, _) => MODEM_READY,
            (SCRATCH, _) => self.state.scr,
            _ => 0,
        }
    }

    #[tactic(auto, unfolding(dev_core::specs::Uart::uart_store_byte))]
    fn store_byte(&mut self, reg: u32, byte: u8) -> Effect
        ensures answer { result ≡ (uart_store_byte self.old reg byte).answer }
        ensures after { self.new ≡ (uart_store_byte self.old reg byte).after }
        ensures valid { IsUartState self.new }
    {
        match (reg, self.is_divisor_shown()) {
            (DATA, false) => {
                self.state.thr = true;
                return Effect::Send(Payload::Byte(byte));
            }
            (INTERRUPT_ENABLE, false) => self.store_interrupt_enable(byte),
            (DIVISOR_LOW, true) => self.state.dll = byte,
            (DIVISOR_HIGH, true) => self.state.dlm = byte,
            (FIFO_CONTROL, _) => store_control(&mut self.state, byte),
            (LINE_CONTROL, _) => self.state.lcr = byte,
            (MODEM_CONTROL, _) => self.state.mcr = byte & 0x1F,
            (SCRATCH, _) => self.state.scr = byte,
            _ => {}
        }
        Effect::Quiet
    }
}

impl Device for Uart {
    ghost use Rattle.dev_core.specs.declared.state.DevState.TheVariants.{Uart as uart_state};

    ghost meaning = { λ u. uart_state u };

    fn kind(&self) -> Kind {
        Kind::Uart
    }

    fn load(&mut self, reg: u32, _width: u8) -> u32 {
        u32::from(self.load_byte(reg))
    }

    fn store(&mut self, reg: u32, _width: u8, value: u32) -> Effect {
        self.store_byte(reg, (value & 0xFF) as u8)
    }

    fn take(&mut self, payload: &Payload) -> Taken {
        match payload {
            Payload::Byte(byte) => receive(&mut self.state, *byte),
            Payload::Frame(_) | Payload::Finish(_) => Taken::Refused,
        }
    }

    fn line(&self) -> bool {
        is_pending(&self.state)
    }

    fn reset(&mut self) {
        self.state = UartState::reset();
    }

    fn state(&self) -> DevState {
        DevState::Uart(self.state)
    }

    fn put(&mut self, state: &DevState) -> bool {
        match state {
            DevState::Uart(uart) if uart.is_valid() => {
                self.state = *uart;
                true
            }
            _ => false,
        }
    }
}
