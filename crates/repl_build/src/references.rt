//! The names by which peripherals refer to one another.
ghost use Rattle.std.specs.Prelude.{◌≡◌};
ghost use Rattle.repl_build.specs.References as reference;

use crate::merge::Peripheral;
use crate::types::{PeripheralType, is_type};
use repl_read::{ItemWhat, Value};

/// Whether a peripheral of the type has the name.
pub(crate) fn names_a(kind: PeripheralType, peripherals: &[Peripheral], name: &str) -> bool
    ensures { result ≡ reference.names_a kind peripherals.now name.now }
{
    peripherals
        .iter()
        .any(|p| is_type(kind, p.kind) && p.name.as_str() == name)
}

/// Whether an item names a time provider that is no CLINT, or a destination that is neither a
/// processor nor a PLIC.
pub(crate) fn refers_to_none(all: &[Peripheral], what: &ItemWhat) -> bool
    ensures { result ≡ reference.refers_to_none all.now what.now }
{
    match what {
        ItemWhat::Attribute {
            key,
            value: Value::Name(name),
        } => key.as_str() == "timeProvider" && !names_a(PeripheralType::Clint, all, name.as_str()),
        ItemWhat::Attribute { .. } => false,
        ItemWhat::Wire { to, .. } => {
            !(names_a(PeripheralType::Cpu, all, to.as_str())
                || names_a(PeripheralType::Plic, all, to.as_str()))
        }
    }
}
