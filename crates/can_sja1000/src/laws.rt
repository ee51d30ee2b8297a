//! The laws of CAN controllers, over what their calls are defined to do. The functions here do
//! nothing when they run: a proof that needs a law calls the one whose contract it is.
ghost use Rattle.std.specs.Prelude.{
  ◌≡◌,
  ◌+◌,
  ◌/◌,
  ◌%◌,
  ◌^◌,
  ◌<◌,
  ◌≤◌,
  ◌↔◌,
  ℕ,
  List,
  [],
  false,
  sum_by,
  slice_index,
  slice_set,
  IsTrue,
};
ghost use Rattle.dev_core.specs.declared.can_state.CanState.{CanState};
ghost use Rattle.dev_core.specs.declared.payload.Effect.TheVariants.{Send};
ghost use Rattle.dev_core.specs.declared.payload.Payload.TheVariants.{Frame};
ghost use Rattle.dev_core.specs.declared.payload.Taken.TheVariants.{Kept, Refused};
ghost use Rattle.dev_core.specs.Can.{can_load, can_store, can_take, is_accepted, is_reset_mode, IsCanState};
ghost use Rattle.dev_core.specs.Frame.{FrameData, held_size};
ghost use Rattle.can_sja1000.specs.Calls.{after_calls, Call, IsWritten};

/// No calls lead from a valid state to one that is not valid, and the held frames never take more
/// than 64 bytes.
pub fn state_laws()
    ensures valid { (c : CanState) (calls : List Call) →
        IsCanState c → IsCanState (after_calls c calls) }
    ensures held { (c : CanState) (calls : List Call) →
        IsCanState c → sum_by held_size (after_calls c calls).received ≤ 64 }
{}

/// Acceptance depends on nothing but the upper eight bits of the identifier, code and mask; with a
/// mask of ones all frames are accepted.
pub fn acceptance_laws()
    ensures refused { (c d : CanState) (f g : FrameData) →
        is_reset_mode c ≡ false → is_reset_mode d ≡ false → c.code ≡ d.code → c.mask ≡ d.mask →
        f.id / 2 ^ 3 ≡ g.id / 2 ^ 3 →
        (((can_take c (Frame f)).answer ≡ Refused) ↔ ((can_take d (Frame g)).answer ≡ Refused)) }
    ensures masked { (code id : ℕ) → IsTrue (is_accepted code 0xFF id) }
{}

/// What is written to the transmit buffer and sent reads in the receive buffer of a controller that
/// keeps it as it was written: identifier, kind, length and data.
pub fn carrying_laws()
    ensures written { (c : CanState) (place value : ℕ) →
        is_reset_mode c ≡ false → place < 10 →
        (can_store c (10 + place) value).after
        ≡ record c { transmit = slice_set c.transmit place (value % 2 ^ 8) } }
    ensures read { (c d : CanState) (frame : FrameData) (place : ℕ) →
        IsWritten c.transmit → (can_store c 1 1).answer ≡ Send (Frame frame) →
        d.received ≡ [] → (can_take d (Frame frame)).answer ≡ Kept → place < held_size frame →
        (can_load (can_take d (Frame frame)).after (20 + place)).answer
        ≡ slice_index c.transmit place }
{}
