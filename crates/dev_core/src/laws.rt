//! What is said of a kind of device holds of its devices.
ghost use Rattle.std.specs.Prelude.{◌≡◌, false};
ghost use Rattle.dev_core.specs.Answered.{unchanged};
ghost use Rattle.dev_core.specs.Device.{dev_line, dev_take, kind_of};
ghost use Rattle.dev_core.specs.Kind.{row_of};
ghost use Rattle.dev_core.specs.declared.payload.Payload.{Payload};
ghost use Rattle.dev_core.specs.declared.payload.Taken.TheVariants.{Refused};
ghost use Rattle.dev_core.specs.declared.state.DevState.{DevState};

/// A device refuses each payload that its kind does not take, and stays as it is.
pub fn devices_take_what_their_kind_takes()
    ensures { (d : DevState) (payload : Payload) → (row_of (kind_of d)).takes payload ≡ false →
        dev_take d payload ≡ unchanged Refused d }
{}

/// The interrupt line of a device whose kind has none is down.
pub fn devices_without_a_line_are_silent()
    ensures { (d : DevState) → (row_of (kind_of d)).has_line ≡ false → dev_line d ≡ false }
{}
