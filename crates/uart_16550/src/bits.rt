//! The named bits of the registers (PC16550D data sheet, section 8).

/// IER: enables the received data interrupts.
pub const ERBFI: u32 = 0;

/// IER: enables the interrupt of an empty THR.
pub const ETBEI: u32 = 1;

/// IER: enables the interrupt of the line status.
pub const ELSI: u32 = 2;

/// FCR: turns the FIFOs on.
pub const FIFO_ENABLE: u32 = 0;

/// FCR: empties the receiver's FIFO.
pub const RECEIVER_RESET: u32 = 1;

/// LCR: shows the divisor latch in the place of registers 0 and 1.
pub const DLAB: u32 = 7;

/// LSR: THRE and TEMT, the transmitter has nothing left to send.
pub const TRANSMITTER_EMPTY: u8 = 1 << 5 | 1 << 6;

/// MSR: CTS, DSR and DCD, the modem is there and ready.
pub const MODEM_READY: u8 = 1 << 4 | 1 << 5 | 1 << 7;
