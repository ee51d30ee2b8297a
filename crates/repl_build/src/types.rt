//! The types of peripherals.
ghost use Rattle.std.specs.Prelude.{◌≡◌, Some};
ghost use Rattle.repl_build.specs.Types as types_spec;

use dev_core::Kind;

/// A type of peripheral that a board may have.
#[derive(Clone, Copy)]
pub(crate) enum PeripheralType {
    Cpu,
    Memory,
    Clint,
    Plic,
    Device(Kind),
}

/// The type of this name.
pub(crate) fn type_of(name: &str) -> Option<PeripheralType>
    ensures { result ≡ types_spec.type_of name.now }
{
    match name {
        "CPU.RiscV32" => Some(PeripheralType::Cpu),
        "Memory.MappedMemory" => Some(PeripheralType::Memory),
        "IRQControllers.CoreLevelInterruptor" => Some(PeripheralType::Clint),
        "IRQControllers.PlatformLevelInterruptController" => Some(PeripheralType::Plic),
        _ => Kind::called(name).map(PeripheralType::Device),
    }
}

fn is_same(kind: PeripheralType, other: PeripheralType) -> bool
    ensures { result ≡ types_spec.is_type kind (Some other) }
{
    match (kind, other) {
        (PeripheralType::Cpu, PeripheralType::Cpu) => true,
        (PeripheralType::Memory, PeripheralType::Memory) => true,
        (PeripheralType::Clint, PeripheralType::Clint) => true,
        (PeripheralType::Plic, PeripheralType::Plic) => true,
        (PeripheralType::Device(a), PeripheralType::Device(b)) => a.is(b),
        _ => false,
    }
}

/// Whether a peripheral's type is this one.
pub(crate) fn is_type(kind: PeripheralType, other: Option<PeripheralType>) -> bool
    ensures { result ≡ types_spec.is_type kind other }
{
    match other {
        Some(other) => is_same(kind, other),
        None => false,
    }
}
