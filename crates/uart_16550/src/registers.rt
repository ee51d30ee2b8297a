//! The addresses of the registers (PC16550D data sheet, table II).

/// RBR on a load, THR on a store.
pub const DATA: u32 = 0;

pub const INTERRUPT_ENABLE: u32 = 1;

/// With DLAB set, in the place of the data register.
pub const DIVISOR_LOW: u32 = 0;

/// With DLAB set, in the place of the interrupt enable register.
pub const DIVISOR_HIGH: u32 = 1;

/// IIR on a load.
pub const INTERRUPT_IDENTIFICATION: u32 = 2;

/// FCR on a store.
pub const FIFO_CONTROL: u32 = 2;

pub const LINE_CONTROL: u32 = 3;

pub const MODEM_CONTROL: u32 = 4;

pub const LINE_STATUS: u32 = 5;

pub const MODEM_STATUS: u32 = 6;

pub const SCRATCH: u32 = 7;
