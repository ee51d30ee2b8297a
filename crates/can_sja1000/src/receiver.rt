//! The receive FIFO: what fills it, what empties it, and the status register (SJA1000 data sheet,
//! sections 6.3.5 and 6.3.8).
ghost use Rattle.std.specs.Prelude.{◌≡◌, ◌+◌, ◌≤◌, sum_by};
ghost use Rattle.dev_core.specs.Can.{
  buffer_released,
  can_receive,
  frame_kept,
  frame_lost,
  is_reset_mode,
  IsCanState,
  sr,
};
ghost use Rattle.dev_core.specs.Frame.{held_size};

use crate::bits::{OIE, RIE, RR, TRANSMITTER_READY};
use crate::filter::is_accepted;
use dev_core::{CanState, Frame, Taken, is_set};

/// How many bytes the receive FIFO has.
const FIFO_SIZE: usize = 64;

pub fn is_reset_mode(can: &CanState) -> bool
    ensures { result ≡ is_reset_mode can.now }
{
    is_set(can.control, RR)
}

/// The status register.
pub fn status(can: &CanState) -> u8
    ensures { result ≡ sr can.now }
{
    let is_held = !can.received.items().is_empty();
    TRANSMITTER_READY + u8::from(is_held) + (u8::from(can.dos) << 1)
}

/// Drops the first held frame.
pub fn release(can: &mut CanState)
    requires { IsCanState can.old }
    ensures after { can.new ≡ buffer_released can.old }
    ensures valid { IsCanState can.new }
{
    let is_more_held = can.received.items().len() > 1;
    let _released = can.received.pop_first();
    if is_more_held && is_set(can.control, RIE) {
        can.ri = true;
    }
}

/// Holds a frame for which there is room.
fn keep(can: &mut CanState, frame: Frame)
    requires valid { IsCanState can.old }
    requires room { sum_by held_size can.old.received + held_size frame ≤ 64 }
    ensures after { can.new ≡ frame_kept can.old frame }
    ensures valid { IsCanState can.new }
{
    can.received.push(frame);
    if is_set(can.control, RIE) {
        can.ri = true;
    }
}

/// Notes that a frame was lost, if that is not noted yet.
fn lose(can: &mut CanState)
    requires { IsCanState can.old }
    ensures after { can.new ≡ frame_lost can.old }
    ensures valid { IsCanState can.new }
{
    if can.dos {
        return;
    }
    can.dos = true;
    if is_set(can.control, OIE) {
        can.doi = true;
    }
}

/// Takes a frame that has arrived.
#[tactic(auto, unfolding(dev_core::specs::Can::can_receive))]
pub fn receive(can: &mut CanState, frame: Frame) -> Taken
    requires { IsCanState can.old }
    ensures answer { result ≡ (can_receive can.old frame).answer }
    ensures after { can.new ≡ (can_receive can.old frame).after }
    ensures refused { result ≡ Taken.Refused → can.new ≡ can.old }
    ensures valid { IsCanState can.new }
{
    if is_reset_mode(can) || !is_accepted(can.code, can.mask, frame.id()) {
        return Taken::Refused;
    }
    if can.held_bytes() + frame.held_size() > FIFO_SIZE {
        lose(can);
        return Taken::Overrun;
    }
    keep(can, frame);
    Taken::Kept
}
