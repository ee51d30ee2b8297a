//! What peripherals are on a board, and their numbers there.
ghost use Rattle.std.specs.Prelude.{◌≡◌, ◌≤◌, ◌<◌, take, length};
ghost use Rattle.repl_build.specs.Counts as counts_spec;
ghost use Rattle.repl_build.specs.Numbers as numbers_spec;

use crate::counts::count_of;
use crate::merge::Peripheral;
use crate::types::PeripheralType;
use sys_bus::{NamedWhat, RegionKind};

fn is_device(kind: Option<PeripheralType>) -> bool
    ensures { result ≡ numbers_spec.is_device kind }
{
    match kind {
        Some(PeripheralType::Device(_)) => true,
        _ => false,
    }
}

/// How many devices there are.
fn devices_of(all: &[Peripheral]) -> usize
    ensures { result ≡ numbers_spec.devices_of all.now }
{
    all.iter().filter(|p| is_device(p.kind)).count()
}

/// The number of the device at `i`, if a device is there: how many are before it.
pub(crate) fn device_number(all: &[Peripheral], i: usize) -> u8
    requires few { numbers_spec.devices_of all.now < 256 }
    requires inside { i ≤ length all.now }
    ensures { result ≡ numbers_spec.devices_of (take i all.now) }
{
    devices_of(&all[..i]) as u8
}

/// The number of the memory at `i`, if a memory is there: how many are before it.
fn memory_number(all: &[Peripheral], i: usize) -> u8
    requires few { numbers_spec.AreFew all.now }
    requires inside { i ≤ length all.now }
    ensures { result ≡ counts_spec.count_of (take i all.now) PeripheralType.Memory }
{
    count_of(&all[..i], PeripheralType::Memory) as u8
}

/// What a peripheral at `i` is on the board.
pub(crate) fn what_of(
    all: &[Peripheral],
    i: usize,
    kind: Option<PeripheralType>,
) -> Option<NamedWhat>
    requires few { numbers_spec.AreFew all.now }
    requires inside { i ≤ length all.now }
    ensures { result ≡ numbers_spec.what_of (take i all.now) kind }
{
    let part = match kind? {
        PeripheralType::Cpu => return Some(NamedWhat::Cpu),
        PeripheralType::Memory => RegionKind::Ram(memory_number(all, i)),
        PeripheralType::Clint => RegionKind::Clint,
        PeripheralType::Plic => RegionKind::Plic,
        PeripheralType::Device(_) => RegionKind::Dev(device_number(all, i)),
    };
    Some(NamedWhat::Part(part))
}
