//! A device that counts its calls.
ghost use Rattle.std.specs.Prelude.{◌≡◌};
ghost use Rattle.dev_core.specs.declared.state.DevState.TheVariants as state;
ghost use Rattle.dev_core.specs.Uart.{uart_reset};

use dev_core::{DevState, Device, Effect, Kind, Payload, Taken};
use std::cell::Cell;
use uart_16550::Uart;

/// A UART that counts its loads and its stores. The counts stand still at 2^32 - 1.
#[derive(Drop)]
pub struct CountedUart<'a> {
    uart: Uart,
    loads: &'a Cell<u32>,
    stores: &'a Cell<u32>,
}

impl<'a> CountedUart<'a> {
    pub fn new(loads: &'a Cell<u32>, stores: &'a Cell<u32>) -> CountedUart<'a>
        ensures { ⟦<CountedUart<'a> as Device>⟧.meaning result ≡ state.Uart uart_reset }
    {
        CountedUart {
            uart: Uart::new(),
            loads,
            stores,
        }
    }
}

impl<'a> Device for CountedUart<'a> {
    ghost meaning = { λ c. ⟦<Uart as Device>⟧.meaning c.uart };

    fn kind(&self) -> Kind {
        self.uart.kind()
    }

    fn load(&mut self, reg: u32, width: u8) -> u32 {
        self.loads.set(self.loads.get().saturating_add(1));
        self.uart.load(reg, width)
    }

    fn store(&mut self, reg: u32, width: u8, value: u32) -> Effect {
        self.stores.set(self.stores.get().saturating_add(1));
        self.uart.store(reg, width, value)
    }

    fn take(&mut self, payload: &Payload) -> Taken {
        self.uart.take(payload)
    }

    fn line(&self) -> bool {
        self.uart.line()
    }

    fn reset(&mut self) {
        self.uart.reset();
    }

    fn state(&self) -> DevState {
        self.uart.state()
    }

    fn put(&mut self, state: &DevState) -> bool {
        self.uart.put(state)
    }
}
