//! The CAN controller as a device.
ghost use Rattle.std.specs.Prelude.{◌≡◌, [], slice_index, slice_get, if◌then◌else◌};
ghost use Rattle.std.specs.Option.{option_map_or};
ghost use Rattle.dev_core.specs.Can.{
  can_load,
  can_reset,
  can_store_byte,
  cmr_stored,
  cr_stored,
  ir,
  ir_loaded,
  is_reset_mode,
  IsCanState,
};
ghost use Rattle.dev_core.specs.Bit.{is_set};
ghost use Rattle.dev_core.specs.CanBits.{tr};
ghost use Rattle.dev_core.specs.CanFrame.{frame_bytes, frame_of};

use crate::bits::*;
use crate::buffers::{byte_at, frame_of};
use crate::interrupts::{interrupts, is_pending};
use crate::receiver::{is_reset_mode, receive, release, status};
use crate::registers::*;
use dev_core::{CanState, DevState, Device, Effect, FrameRow, Kind, Payload, Taken, is_set};
use std::marker::Model;

/// A CAN controller, which contracts see as its state.
#[derive(Drop)]
pub struct Can {
    state: CanState,
}

impl Model for Can {
    ghost use Rattle.dev_core.specs.declared.can_state.CanState.{CanState};
    ghost use Rattle.dev_core.specs.Can.{IsCanState};

    ghost Value = { CanState };

    ghost view = { λ c. c.state };

    ghost invariant = { λ c. IsCanState c.state };
}

impl Can {
    /// A CAN controller in its reset state.
    pub fn new() -> Can
        ensures { result ≡ can_reset }
    {
        Can {
            state: CanState::reset(),
        }
    }

    /// The interrupt register. What it tells is told once.
    fn load_interrupts(&mut self) -> u8
        ensures value { result ≡ ir self.old }
        ensures after { self.new ≡ ir_loaded self.old }
        ensures valid { IsCanState self.new }
    {
        let value = interrupts(&self.state);
        self.state.ri = false;
        self.state.ti = false;
        self.state.doi = false;
        value
    }

    /// The byte at this place of the receive buffer: of the first held frame, or 0.
    fn received_byte(&self, place: usize) -> u8
        ensures { result ≡
            slice_index (option_map_or frame_bytes (slice_get self.now.received 0) []) place }
    {
        match self.state.received.items().first() {
            Some(frame) => byte_at(frame, place),
            None => 0,
        }
    }

    /// Stores the control register. To enter reset mode empties the receiver and clears what was
    /// told of it; else a frame that is held makes an interrupt when that is turned on.
    fn store_control(&mut self, byte: u8)
        ensures after { self.new ≡ cr_stored self.old byte }
        ensures valid { IsCanState self.new }
    {
        let before = self.state.control;
        self.state.control = byte & 0x1F;
        if is_set(byte, RR) && !is_set(before, RR) {
            self.state.received = FrameRow::new();
            self.state.dos = false;
            self.state.ri = false;
            self.state.ti = false;
            self.state.doi = false;
        } else if is_set(byte, RIE)
            && !is_set(before, RIE)
            && !self.state.received.items().is_empty()
        {
            self.state.ri = true;
        }
    }

    /// Stores the command register in operating mode.
    fn store_command(&mut self, byte: u8) -> Effect
        ensures answer { result ≡
            (if is_set byte tr then Effect.Send (Payload.Frame (frame_of self.old.transmit)) else Effect.Quiet) }
        ensures after { self.new ≡ cmr_stored self.old byte }
        ensures valid { IsCanState self.new }
    {
        if is_set(byte, CDO) {
            self.state.dos = false;
        }
        if is_set(byte, RRB) {
            release(&mut self.state);
        }
        if !is_set(byte, TR) {
            return Effect::Quiet;
        }
        if is_set(self.state.control, TIE) {
            self.state.ti = true;
        }
        Effect::Send(Payload::Frame(frame_of(&self.state.transmit)))
    }

    #[tactic(auto, unfolding(dev_core::specs::Can::can_load))]
    fn load_byte(&mut self, reg: u32) -> u8
        ensures answer { result ≡ (can_load self.old reg).answer }
        ensures after { self.new ≡ (can_load self.old reg).after }
        ensures valid { IsCanState self.new }
    {
        match (reg, is_reset_mode(&self.state)) {
            (CONTROL, _) => self.state.control,
            (STATUS, _) => status(&self.state),
            (INTERRUPT, _) => self.load_interrupts(),
            (ACCEPTANCE_CODE, true) => self.state.code,
            (ACCEPTANCE_MASK, true) => self.state.mask,
            (BUS_TIMING_0, true) => self.state.timing0,
            (BUS_TIMING_1, true) => self.state.timing1,
            (OUTPUT_CONTROL, true) => self.state.output,
            (COMMAND, _) | (ACCEPTANCE_CODE..=OUTPUT_CONTROL, false) => NOT_READABLE,
            (TRANSMIT..=TRANSMIT_END, true) => NOT_READABLE,
            (TRANSMIT..=TRANSMIT_END, false) => self.state.transmit[(reg - TRANSMIT) as usize],
            (RECEIVE..=RECEIVE_END, _) => self.received_byte((reg - RECEIVE) as usize),
            (CLOCK_DIVIDER, _) => self.state.divider,
            _ => 0,
        }
    }

    #[tactic(auto, using(crate::proofs::DividerLemmas::dividers), unfolding(dev_core::specs::Can::can_store_byte))]
    fn store_byte(&mut self, reg: u32, byte: u8) -> Effect
        ensures answer { result ≡ (can_store_byte self.old reg byte).answer }
        ensures after { self.new ≡ (can_store_byte self.old reg byte).after }
        ensures valid { IsCanState self.new }
    {
        match (reg, is_reset_mode(&self.state)) {
            (CONTROL, _) => self.store_control(byte),
            (COMMAND, false) => return self.store_command(byte),
            (ACCEPTANCE_CODE, true) => self.state.code = byte,
            (ACCEPTANCE_MASK, true) => self.state.mask = byte,
            (BUS_TIMING_0, true) => self.state.timing0 = byte,
            (BUS_TIMING_1, true) => self.state.timing1 = byte,
            (OUTPUT_CONTROL, true) => self.state.output = byte,
            (TRANSMIT..=TRANSMIT_END, false) => {
                self.state.transmit[(reg - TRANSMIT) as usize] = byte;
            }
            (CLOCK_DIVIDER, true) => self.state.divider = byte & (RESET_MODE_BITS | CLOCK_BITS),
            (CLOCK_DIVIDER, false) => {
                self.state.divider = self.state.divider & RESET_MODE_BITS | byte & CLOCK_BITS;
            }
            _ => {}
        }
        Effect::Quiet
    }
}

impl Device for Can {
    ghost use Rattle.dev_core.specs.declared.state.DevState.TheVariants.{Can as can_state};

    ghost meaning = { λ c. can_state c };

    fn kind(&self) -> Kind {
        Kind::Can
    }

    fn load(&mut self, reg: u32, _width: u8) -> u32 {
        u32::from(self.load_byte(reg))
    }

    fn store(&mut self, reg: u32, _width: u8, value: u32) -> Effect {
        self.store_byte(reg, (value & 0xFF) as u8)
    }

    fn take(&mut self, payload: &Payload) -> Taken {
        match payload {
            Payload::Frame(frame) => receive(&mut self.state, *frame),
            Payload::Byte(_) | Payload::Finish(_) => Taken::Refused,
        }
    }

    fn line(&self) -> bool {
        is_pending(&self.state)
    }

    fn reset(&mut self) {
        self.state = CanState::reset();
    }

    fn state(&self) -> DevState {
        DevState::Can(self.state)
    }

    fn put(&mut self, state: &DevState) -> bool {
        match state {
            DevState::Can(can) if can.is_valid() => {
                self.state = *can;
                true
            }
            _ => false,
        }
    }
}
