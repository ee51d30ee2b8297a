//! The named bits of the registers (SJA1000 data sheet, section 6.3).

/// CR: the reset request. While it is 1 the controller is in reset mode.
pub const RR: u32 = 0;

/// CR: enables the receive interrupt.
pub const RIE: u32 = 1;

/// CR: enables the transmit interrupt.
pub const TIE: u32 = 2;

/// CR: enables the data overrun interrupt.
pub const OIE: u32 = 4;

/// CMR: sends the frame of the transmit buffer.
pub const TR: u32 = 0;

/// CMR: releases the receive buffer.
pub const RRB: u32 = 2;

/// CMR: clears the data overrun status.
pub const CDO: u32 = 3;

/// The second byte of a buffer: the frame is a remote frame.
pub const RTR: u32 = 4;

/// SR: the transmit buffer is free, and the last transmission is complete.
pub const TRANSMITTER_READY: u8 = 1 << 2 | 1 << 3;

/// CDR: the bits that a store in operating mode keeps.
pub const RESET_MODE_BITS: u8 = 1 << 3 | 1 << 5 | 1 << 6;

/// CDR: the bits that a store changes in either mode.
pub const CLOCK_BITS: u8 = 0x07;

/// What a register reads that is not to be read in the present mode.
pub const NOT_READABLE: u8 = 0xFF;
