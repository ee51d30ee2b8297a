//! The state of a CAN controller.
ghost use Rattle.std.specs.Prelude.{◌≡◌, ◌↔◌, IsTrue, sum_by};
ghost use Rattle.dev_core.specs.Can.{can_reset, IsCanState};
ghost use Rattle.dev_core.specs.Frame.{held_size};

use crate::frame_row::FrameRow;

/// All that a CAN controller holds.
#[derive(Clone, Copy, PartialEq, Eq)]
pub struct CanState {
    /// RR, RIE, TIE, EIE and OIE at bits 0 to 4; the other bits are 0.
    pub control: u8,
    /// Acceptance code.
    pub code: u8,
    /// Acceptance mask.
    pub mask: u8,
    /// Bus timing 0.
    pub timing0: u8,
    /// Bus timing 1.
    pub timing1: u8,
    /// Output control.
    pub output: u8,
    /// Clock divider, of which bits 4 and 7 are 0.
    pub divider: u8,
    /// The transmit buffer.
    pub transmit: [u8; 10],
    /// The received frames that were not released yet.
    pub received: FrameRow,
    /// Data overrun status: a received frame was lost.
    pub dos: bool,
    /// Receive interrupt.
    pub ri: bool,
    /// Transmit interrupt.
    pub ti: bool,
    /// Data overrun interrupt.
    pub doi: bool,
}

impl CanState {
    /// The state after a reset.
    pub fn reset() -> CanState
        ensures { result ≡ can_reset }
    {
        CanState {
            control: 1,
            code: 0,
            mask: 0,
            timing0: 0,
            timing1: 0,
            output: 0,
            divider: 0,
            transmit: [0; 10],
            received: FrameRow::new(),
            dos: false,
            ri: false,
            ti: false,
            doi: false,
        }
    }

    /// How many bytes the received frames take in the receive FIFO.
    pub fn held_bytes(&self) -> usize
        ensures { result ≡ sum_by held_size self.now.received }
    {
        self.received
            .items()
            .iter()
            .map(|frame| frame.held_size())
            .sum()
    }

    /// Whether a CAN controller can have this state.
    pub fn is_valid(&self) -> bool
        ensures { IsTrue result ↔ IsCanState self.now }
    {
        self.control <= 0x1F && self.divider & 0x90 == 0 && self.held_bytes() <= 64
    }
}
