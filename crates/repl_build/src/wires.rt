//! The wires: interrupt lines, connected one by one with pins.
ghost use Rattle.std.specs.Prelude.{◌≡◌, ◌+◌, ◌++◌, ◌<◌, [], IfOk, IfErr, OnOk, IsTrue, true};
ghost use Rattle.std.specs.List.{list_all, flat_map};
ghost use Rattle.repl_build.specs.Counts as counts_spec;
ghost use Rattle.repl_build.specs.Numbers.{devices_of};
ghost use Rattle.repl_build.specs.Plan.{Gives, wires_from};
ghost use Rattle.repl_build.specs.Wires as wires_spec;

use crate::counts::count_of;
use crate::merge::{Peripheral, PlacedItem};
use crate::numbers::device_number;
use crate::processors::hart_of;
use crate::types::PeripheralType;
use lab_num::Rows;
use repl_read::{Ends, ItemWhat, PlatCause, PlatFault, Span};
use std::alloc::Global;
use sys_bus::{MOST_SOURCES, PlicSize, Wire, WireFrom, WirePin, is_context, may_end};

/// Puts the numbers of a span after others.
fn add_numbers(numbers: &mut Vec<u8>, span: Span) -> Result<(), PlatFault>
    requires { IsTrue (wires_spec.is_low span) }
    ensures ok { OnOk result (numbers.new.items ≡ numbers.old.items ++ wires_spec.numbers_of span) }
    ensures err { IfErr result (λ fault. fault ≡ PlatFault.Memory) }
{
    for n in span.first..span.last + 1 {
        numbers.push(n as u8)?;
    }
    Ok(())
}

/// The numbers of spans.
fn numbers_of(alloc: Global, spans: &[Span]) -> Result<Vec<u8>, PlatFault>
    requires { IsTrue (list_all wires_spec.is_low spans.now) }
    ensures ok { IfOk result (λ numbers. numbers.items ≡ flat_map wires_spec.numbers_of spans.now) }
    ensures err { IfErr result (λ fault. fault ≡ PlatFault.Memory) }
{
    let mut numbers = Vec::new(alloc);
    for span in spans {
        add_numbers(&mut numbers, *span)?;
    }
    Ok(numbers)
}

fn are_low(spans: &[Span]) -> bool
    ensures { result ≡ list_all wires_spec.is_low spans.now }
{
    spans
        .iter()
        .all(|span| span.last <= u32::from(MOST_SOURCES))
}

/// The numbers that an end of a wire names, unless one is beyond all lines and pins.
fn ends_of(alloc: Global, ends: &Ends) -> Result<Option<Rows<u8>>, PlatFault>
    ensures ok { IfOk result
        (λ made. made ≡ wires_spec.ends_of ends.now) }
    ensures err { IfErr result (λ fault. fault ≡ PlatFault.Memory) }
{
    match ends {
        Ends::Absent | Ends::Irq => Ok(Some(Rows::of(vec![in alloc; 0]?))),
        Ends::Spans(spans) => {
            let spans = spans.items();
            if are_low(spans) {
                Ok(Some(Rows::of(numbers_of(alloc, spans)?)))
            } else {
                Ok(None)
            }
        }
    }
}

/// The line of this number, where `dev` is the number of the device.
fn line_of(
    plic: Option<PlicSize>,
    kind: Option<PeripheralType>,
    dev: u8,
    line: u8,
) -> Option<WireFrom>
    ensures { result ≡ wires_spec.line_of plic kind dev line }
{
    match (kind, line) {
        (Some(PeripheralType::Clint), 0) => Some(WireFrom::Soft),
        (Some(PeripheralType::Clint), 1) => Some(WireFrom::Timer),
        (Some(PeripheralType::Plic), _) if is_context(plic, line) => Some(WireFrom::Context(line)),
        (Some(PeripheralType::Device(kind)), 0) if kind.has_line() => Some(WireFrom::Dev(dev)),
        _ => None,
    }
}

fn pin_by(hart: Option<u8>, pin: u8) -> WirePin
    ensures { result ≡ wires_spec.pin_by hart pin }
{
    match hart {
        Some(hart) => WirePin::Cpu { hart, pin },
        None => WirePin::Source(pin),
    }
}

/// Where a wire may begin and end.
#[derive(Clone, Copy)]
struct Between {
    plic: Option<PlicSize>,
    /// How many processors there are.
    processors: usize,
    kind: Option<PeripheralType>,
    /// The number of the device at which it begins.
    dev: u8,
    /// The processor at which it ends, or `None` where that is the interrupt controller.
    hart: Option<u8>,
}

/// The wire from a line to a pin, if it is one that a board may have.
fn wire_at(between: Between, line: u8, pin: u8) -> Option<Wire>
    ensures { result ≡ wires_spec.wire_at
        between.plic between.processors between.kind between.dev between.hart line pin }
{
    let pin = pin_by(between.hart, pin);
    match line_of(between.plic, between.kind, between.dev, line) {
        Some(from) if may_end(between.plic, between.processors, from, pin) => {
            Some(Wire { from, pin })
        }
        _ => None,
    }
}

/// Lines and pins, connected one by one.
fn wired(
    alloc: Global,
    between: Between,
    lines: &[u8],
    pins: &[u8],
) -> Result<Option<Rows<Wire>>, PlatFault>
    ensures ok { IfOk result (λ made. made ≡ wires_spec.wired
        (wires_spec.wire_at between.plic between.processors between.kind between.dev between.hart)
        lines.now pins.now) }
    ensures err { IfErr result (λ fault. fault ≡ PlatFault.Memory) }
{
    let mut wires = Vec::new(alloc);
    if lines.len() != pins.len() {
        return Ok(None);
    }
    for (i, &line) in lines.iter().enumerate() {
        let Some(wire) = wire_at(between, line, pins[i]) else {
            return Ok(None);
        };
        wires.push(wire)?;
    }
    Ok(Some(Rows::of(wires)))
}

/// Whether devices of a type have a line of their own.
fn has_line(kind: Option<PeripheralType>) -> bool
    ensures { result ≡ wires_spec.has_line kind }
{
    match kind {
        Some(PeripheralType::Device(kind)) => kind.has_line(),
        _ => false,
    }
}

/// Whether a peripheral may have such an end: `IRQ` is the one line of a device.
fn has_ends(kind: Option<PeripheralType>, ends: &Ends) -> bool
    ensures { result ≡ wires_spec.has_ends kind ends.now }
{
    match ends {
        Ends::Irq => has_line(kind),
        _ => true,
    }
}

/// The wires between two ends.
fn wires_between(
    alloc: Global,
    between: Between,
    from: &Ends,
    pins: &Ends,
) -> Result<Option<Rows<Wire>>, PlatFault>
    ensures ok { IfOk result (λ made. made ≡ wires_spec.wires_between
        between.plic between.processors between.kind between.dev between.hart from.now pins.now) }
    ensures err { IfErr result (λ fault. fault ≡ PlatFault.Memory) }
{
    if !has_ends(between.kind, from) {
        return Ok(None);
    }
    let Some(lines) = ends_of(alloc, from)? else {
        return Ok(None);
    };
    let Some(pins) = ends_of(alloc, pins)? else {
        return Ok(None);
    };
    wired(alloc, between, lines.items(), pins.items())
}

/// The wires of an item of a device.
fn item_wires(
    alloc: Global,
    plic: Option<PlicSize>,
    all: &[Peripheral],
    kind: Option<PeripheralType>,
    dev: u8,
    what: &ItemWhat,
) -> Result<Option<Rows<Wire>>, PlatFault>
    requires { counts_spec.count_of all.now PeripheralType.Cpu < 256 }
    ensures ok { IfOk result (λ made. made
        ≡ wires_spec.item_wires plic all.now kind dev what.now) }
    ensures err { IfErr result (λ fault. fault ≡ PlatFault.Memory) }
{
    match what {
        ItemWhat::Attribute { .. } => Ok(Some(Rows::of(Vec::new(alloc)))),
        ItemWhat::Wire { from, to, pins } => {
            let between = Between {
                plic,
                processors: count_of(all, PeripheralType::Cpu),
                kind,
                dev,
                hart: hart_of(all, to.as_str()),
            };
            wires_between(alloc, between, from, pins)
        }
    }
}

/// The wires of an item, or its fault.
fn placed_wires(
    alloc: Global,
    plic: Option<PlicSize>,
    all: &[Peripheral],
    kind: Option<PeripheralType>,
    dev: u8,
    item: &PlacedItem,
) -> Result<Rows<Wire>, PlatFault>
    requires { counts_spec.count_of all.now PeripheralType.Cpu < 256 }
    ensures { Gives result (wires_spec.placed_wires plic all.now kind dev item.now) }
{
    match item_wires(alloc, plic, all, kind, dev, &item.what)? {
        Some(wires) => Ok(wires),
        None => Err(PlatFault::At {
            file: item.file,
            line: item.line,
            cause: PlatCause::Line,
        }),
    }
}

/// Puts wires after others.
fn append(wires: &mut Vec<Wire>, more: &[Wire]) -> Result<(), PlatFault>
    ensures ok { OnOk result (wires.new.items ≡ wires.old.items ++ more.now) }
    ensures err { IfErr result (λ fault. fault ≡ PlatFault.Memory) }
{
    for wire in more {
        wires.push(*wire)?;
    }
    Ok(())
}

/// The wires of a peripheral, which is the device `dev` if it is one, or the first fault.
fn peripheral_wires(
    alloc: Global,
    plic: Option<PlicSize>,
    all: &[Peripheral],
    p: &Peripheral,
    dev: u8,
) -> Result<Rows<Wire>, PlatFault>
    requires { counts_spec.count_of all.now PeripheralType.Cpu < 256 }
    ensures { Gives result (wires_spec.items_wires
        (wires_spec.placed_wires plic all.now p.now.kind dev) p.now.items) }
{
    let mut wires = Vec::new(alloc);
    for item in p.items.items() {
        let more = placed_wires(alloc, plic, all, p.kind, dev, item)?;
        append(&mut wires, more.items())?;
    }
    Ok(Rows::of(wires))
}

/// All wires, or the first fault.
pub(crate) fn wires_of(
    alloc: Global,
    plic: Option<PlicSize>,
    all: &[Peripheral],
) -> Result<Rows<Wire>, PlatFault>
    requires devices { devices_of all.now < 256 }
    requires processors { counts_spec.count_of all.now PeripheralType.Cpu < 256 }
    ensures { Gives result (wires_from plic all.now [] all.now) }
{
    let mut wires = Vec::new(alloc);
    for (i, p) in all.iter().enumerate() {
        let dev = device_number(all, i);
        let more = peripheral_wires(alloc, plic, all, p, dev)?;
        append(&mut wires, more.items())?;
    }
    Ok(Rows::of(wires))
}
