//! What devices send and take.
use crate::frame::Frame;

/// How a test ended.
#[derive(Clone, Copy, PartialEq, Eq)]
pub enum Finish {
    Pass,
    /// The test failed, with a code of its own.
    Fail(u16),
}

/// What a device hands to others.
#[derive(Clone, Copy, PartialEq, Eq)]
pub enum Payload {
    /// One byte that a UART sent.
    Byte(u8),
    /// One frame that a CAN controller sent.
    Frame(Frame),
    /// The end of a test, which a finisher tells.
    Finish(Finish),
}

/// What a store makes a device do beyond its own state.
#[derive(Clone, Copy, PartialEq, Eq)]
pub enum Effect {
    /// Nothing.
    Quiet,
    /// It sends this.
    Send(Payload),
}

/// What became of a payload that was handed to a device.
#[derive(Clone, Copy, PartialEq, Eq)]
pub enum Taken {
    /// It waits to be read.
    Kept,
    /// The device does not take it, and nothing has changed.
    Refused,
    /// There was no room for it, so a payload was lost.
    Overrun,
}
