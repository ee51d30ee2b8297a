//! The wires of interrupts.
ghost use Rattle.std.specs.Prelude.{◌≡◌};
ghost use Rattle.sys_bus.specs.Wire as wire_spec;

use crate::part::has_region;
use crate::plan::PlicSize;
use crate::region::{Region, RegionKind};
use dev_core::Kind;
use rv_hart::{EXTERNAL_INTERRUPT, SOFTWARE_INTERRUPT, TIMER_INTERRUPT};

/// The line that a wire begins at.
#[derive(Clone, Copy)]
pub enum WireFrom {
    /// The software interrupt of the timer.
    Soft,
    /// The timer interrupt.
    Timer,
    /// A context of the interrupt controller.
    Context(u8),
    /// The line of a device.
    Dev(u8),
}

/// Where a wire ends.
#[derive(Clone, Copy)]
pub enum WirePin {
    /// A bit of the `mip` of the processor of this number.
    Cpu { hart: u8, pin: u8 },
    /// A source of the interrupt controller.
    Source(u8),
}

#[derive(Clone, Copy)]
pub struct Wire {
    pub from: WireFrom,
    pub pin: WirePin,
}

/// Whether this is a pin of a processor.
fn is_pin(pin: u8) -> bool
    ensures { result ≡ wire_spec.is_pin pin }
{
    pin == SOFTWARE_INTERRUPT || pin == TIMER_INTERRUPT || pin == EXTERNAL_INTERRUPT
}

fn is_source(plic: Option<PlicSize>, source: u8) -> bool
    ensures { result ≡ wire_spec.is_source plic source }
{
    match plic {
        Some(size) => 1 <= source && source <= size.sources,
        None => false,
    }
}

/// Whether an interrupt controller has a context. Contexts count from 0.
pub fn is_context(plic: Option<PlicSize>, context: u8) -> bool
    ensures { result ≡ wire_spec.is_context plic context }
{
    match plic {
        Some(size) => context < size.contexts,
        None => false,
    }
}

/// Whether the device of this number is there and has a line.
fn has_line(kinds: &[Kind], dev: u8) -> bool
    ensures { result ≡ wire_spec.has_line kinds.now dev }
{
    match kinds.get(usize::from(dev)) {
        Some(kind) => kind.has_line(),
        None => false,
    }
}

fn is_from(kinds: &[Kind], regions: &[Region], plic: Option<PlicSize>, from: WireFrom) -> bool
    ensures { result ≡ wire_spec.is_from kinds.now regions.now plic from }
{
    match from {
        WireFrom::Soft | WireFrom::Timer => has_region(regions, RegionKind::Clint),
        WireFrom::Context(context) => is_context(plic, context),
        WireFrom::Dev(dev) => has_line(kinds, dev),
    }
}

/// Whether a wire from there may end at a pin, on a board of so many processors.
pub fn may_end(plic: Option<PlicSize>, processors: usize, from: WireFrom, pin: WirePin) -> bool
    ensures { result ≡ wire_spec.may_end plic processors from pin }
{
    match (from, pin) {
        (_, WirePin::Cpu { hart, pin }) => usize::from(hart) < processors && is_pin(pin),
        (WireFrom::Dev(_), WirePin::Source(source)) => is_source(plic, source),
        _ => false,
    }
}

/// Whether each wire is one that a board may have.
pub(crate) fn are_wires(
    kinds: &[Kind],
    regions: &[Region],
    plic: Option<PlicSize>,
    processors: usize,
    wires: &[Wire],
) -> bool
    ensures { result ≡ wire_spec.are_wires kinds.now regions.now plic processors wires.now }
{
    wires.iter().all(|wire| {
        is_from(kinds, regions, plic, wire.from) && may_end(plic, processors, wire.from, wire.pin)
    })
}
