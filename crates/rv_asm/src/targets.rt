//! The targets of branches and jumps: labels, and offsets in bytes. `here` is the address of the
//! line's word.
ghost use Rattle.std.specs.Prelude.{◌≡◌, None};
ghost use Rattle.rv_asm.specs.Places.{place_in};
ghost use Rattle.rv_asm.specs.Lines.{distance, target_by, offset_in};

use crate::fault::AsmCause;
use crate::numbers::{Number, number_of};
use lab_num::is_identifier;
use std::collections::HashMap;

/// How far it is from here to there.
fn distance(here: u32, there: u32) -> Number
    ensures { result ≡ distance here there }
{
    if there < here {
        Number {
            negative: true,
            magnitude: u64::from(here - there),
        }
    } else {
        Number {
            negative: false,
            magnitude: u64::from(there - here),
        }
    }
}

/// The place of a label.
pub(crate) fn place_of(labels: &HashMap<&str, u32>, name: &str) -> Option<u32>
    ensures { result ≡ place_in labels.now name.now }
{
    labels.get(&name).copied()
}

/// How far it is from here to a label.
fn label_offset(labels: &HashMap<&str, u32>, here: u32, name: &str) -> Result<Number, AsmCause>
    ensures { result ≡ target_by (place_in labels.now) here name.now None }
{
    if !is_identifier(name) {
        return Err(AsmCause::Form);
    }
    match place_of(labels, name) {
        Some(there) => Ok(distance(here, there)),
        None => Err(AsmCause::Label),
    }
}

/// The offset of a target, a number or a label: as 32 bits if it is even and from -least to
/// greatest.
pub(crate) fn offset_in(
    labels: &HashMap<&str, u32>,
    here: u32,
    least: u32,
    greatest: u32,
    target: &str,
) -> Result<Option<u32>, AsmCause>
    ensures { result ≡ offset_in (place_in labels.now) here least greatest target.now }
{
    match number_of(target) {
        Some(number) => Ok(number.even_in_field(least, greatest)),
        None => {
            let offset = label_offset(labels, here, target)?;
            Ok(offset.even_in_field(least, greatest))
        }
    }
}
