//! The addresses of the registers (SJA1000 data sheet, section 6.3.1).

pub const CONTROL: u32 = 0;

pub const COMMAND: u32 = 1;

pub const STATUS: u32 = 2;

pub const INTERRUPT: u32 = 3;

pub const ACCEPTANCE_CODE: u32 = 4;

pub const ACCEPTANCE_MASK: u32 = 5;

pub const BUS_TIMING_0: u32 = 6;

pub const BUS_TIMING_1: u32 = 7;

pub const OUTPUT_CONTROL: u32 = 8;

/// The first of the ten bytes of the transmit buffer, and the last.
pub const TRANSMIT: u32 = 10;

pub const TRANSMIT_END: u32 = 19;

/// The first of the ten bytes of the receive buffer, and the last.
pub const RECEIVE: u32 = 20;

pub const RECEIVE_END: u32 = 29;

pub const CLOCK_DIVIDER: u32 = 31;
