//! One slot of one of a board's processors.
ghost use Rattle.std.specs.Prelude.{◌≡◌, ◌<◌, true, length, OnOk, OnErr};
ghost use Rattle.rv_exec.specs.Laws.{IsSameHart};
ghost use Rattle.rv_hart.specs.Trap.{chosen, interrupt};
ghost use Rattle.board.specs.HartView.{slot_state};
ghost use Rattle.board.specs.Inner.Seat.{behind, seat, IsSeat};
ghost use Rattle.board_space.specs.Lines.{sampled, lines_of};
ghost use Rattle.board.specs.Slot.{hart_slot, running, sampling, awake, asleep};
ghost use Rattle.rv_hart.specs.Core.{ticked};

use crate::hart_bus::HartBus;
use crate::instruction::instruction;
use dev_core::Device;
use lab_num::{Micros, NoMemory};
use rv_atomic::Watch;
use rv_hart::{Hart, Lines};

/// The copy of the interpreter for slots that sample or wait. Those of the loops of a turn have
/// numbers of their own.
pub const APART: u8 = 5;

/// What a board asks once in a turn, and not in each slot.
#[derive(Clone, Copy)]
pub struct Features {
    /// Whether there are several processors, or atomic instructions.
    pub shared: bool,
    /// Whether there is a line that may be up.
    pub wired: bool,
    /// Whether there are compressed instructions.
    pub halves: bool,
}

/// One slot of the processor of this number, in this microsecond. The answer is whether it passed
/// by itself: the processor is halted, or goes on waiting. After an `Err` all is as before.
#[inline(always)]
#[tactic(auto, unfolding(crate::specs::Slot::hart_slot))]
pub fn slot<const COPY: u8, D: Device>(
    hart: &mut Hart,
    number: u8,
    watch: &mut Watch,
    bus: &mut HartBus<D>,
    features: Features,
    at: Micros,
) -> Result<bool, NoMemory>
    requires seat { IsSeat features (seat number hart.old watch.old bus.old) }
    ensures ok { let old = slot_state number hart.old watch.old bus.old in
        OnOk result (slot_state number hart.new watch.new bus.new ≡ behind old (hart_slot old.view at.0)) }
    ensures same { OnOk result (IsSameHart hart.old hart.new) }
    ensures watch { OnOk result (length watch.new ≡ length watch.old) }
    ensures err { OnErr result (slot_state number hart.new watch.new bus.new
        ≡ slot_state number hart.old watch.old bus.old) }
{
    if hart.halted() {
        return Ok(true);
    }
    match bus.space.known_lines(features.wired, number, at) {
        Some(lines) => run::<COPY, D>(hart, number, watch, bus, features, at, lines),
        None => Ok(sample_and_run(hart, number, watch, bus, features, at)?),
    }
}

/// The rest of a slot in which the interrupt controller has to sample. After an `Err` all is as
/// before, the controller too.
#[cold]
#[inline(never)]
pub fn sample_and_run<D: Device>(
    hart: &mut Hart,
    number: u8,
    watch: &mut Watch,
    bus: &mut HartBus<D>,
    features: Features,
    at: Micros,
) -> Result<bool, NoMemory>
    requires seat { IsSeat features (seat number hart.old watch.old bus.old) }
    ensures ok { let old = slot_state number hart.old watch.old bus.old in
        OnOk result (slot_state number hart.new watch.new bus.new
        ≡ behind old (running (sampling old.view) at.0 (lines_of (sampled bus.old.space) number at.0))) }
    ensures same { OnOk result (IsSameHart hart.old hart.new) }
    ensures watch { OnOk result (length watch.new ≡ length watch.old) }
    ensures err { OnErr result (slot_state number hart.new watch.new bus.new
        ≡ slot_state number hart.old watch.old bus.old) }
{
    let before = bus.space.controller_state();
    let lines = bus.space.sample(number, at);
    let Ok(idle) = run::<APART, D>(hart, number, watch, bus, features, at, lines) else {
        bus.space.put_controller(&before);
        return Err(NoMemory);
    };
    Ok(idle)
}

/// The rest of a slot whose lines are these. After an `Err` all is as before.
#[inline(always)]
fn run<const COPY: u8, D: Device>(
    hart: &mut Hart,
    number: u8,
    watch: &mut Watch,
    bus: &mut HartBus<D>,
    features: Features,
    at: Micros,
    lines: Lines,
) -> Result<bool, NoMemory>
    requires seat { IsSeat features (seat number hart.old watch.old bus.old) }
    ensures ok { let old = slot_state number hart.old watch.old bus.old in
        OnOk result (slot_state number hart.new watch.new bus.new ≡ behind old (running old.view at.0 lines)) }
    ensures same { OnOk result (IsSameHart hart.old hart.new) }
    ensures watch { OnOk result (length watch.new ≡ length watch.old) }
    ensures err { OnErr result (slot_state number hart.new watch.new bus.new
        ≡ slot_state number hart.old watch.old bus.old) }
{
    if hart.waiting() {
        // taken apart, so that other slots test no answer of it
        return Ok(wait(hart, number, watch, bus, features, at, lines)?);
    }
    act::<COPY, D>(hart, number, watch, bus, features, at, lines)?;
    Ok(false)
}

/// A slot of a processor that waits: it goes on waiting, or is woken. After an `Err` all is as
/// before.
#[cold]
#[inline(never)]
pub fn wait<D: Device>(
    hart: &mut Hart,
    number: u8,
    watch: &mut Watch,
    bus: &mut HartBus<D>,
    features: Features,
    at: Micros,
    lines: Lines,
) -> Result<bool, NoMemory>
    requires waiting { hart.old.waiting ≡ true }
    requires seat { IsSeat features (seat number hart.old watch.old bus.old) }
    ensures ok { let old = slot_state number hart.old watch.old bus.old in
        OnOk result (slot_state number hart.new watch.new bus.new ≡ behind old (asleep old.view at.0 lines)) }
    ensures same { OnOk result (IsSameHart hart.old hart.new) }
    ensures watch { OnOk result (length watch.new ≡ length watch.old) }
    ensures err { OnErr result (slot_state number hart.new watch.new bus.new
        ≡ slot_state number hart.old watch.old bus.old) }
{
    if !hart.is_ready(lines.mip) {
        hart.tick();
        return Ok(true);
    }
    hart.set_waiting(false);
    let Ok(()) = act::<APART, D>(hart, number, watch, bus, features, at, lines) else {
        hart.set_waiting(true);
        return Err(NoMemory);
    };
    Ok(false)
}

/// Enters the interrupt that is taken now, or else does one instruction. After an `Err` all is as
/// before.
#[inline(always)]
#[tactic(auto, unfolding(crate::specs::Slot::awake))]
fn act<const COPY: u8, D: Device>(
    hart: &mut Hart,
    number: u8,
    watch: &mut Watch,
    bus: &mut HartBus<D>,
    features: Features,
    at: Micros,
    lines: Lines,
) -> Result<(), NoMemory>
    requires seat { IsSeat features (seat number hart.old watch.old bus.old) }
    ensures ok { let old = slot_state number hart.old watch.old bus.old in
        OnOk result (slot_state number hart.new watch.new bus.new ≡ behind old (awake old.view at.0 lines)) }
    ensures same { OnOk result (IsSameHart hart.old hart.new) }
    ensures watch { OnOk result (length watch.new ≡ length watch.old) }
    ensures err { OnErr result (slot_state number hart.new watch.new bus.new
        ≡ slot_state number hart.old watch.old bus.old) }
{
    if let Some(n) = taken(hart, lines.mip) {
        enter_interrupt(hart, n);
        return Ok(());
    }
    bus.begin_slot(at);
    let Ok(()) = instruction::<COPY, D>(hart, number, watch, bus, features, lines) else {
        return Err(NoMemory);
    };
    Ok(())
}

/// A slot in which an interrupt is entered.
#[cold]
#[inline(never)]
#[tactic(auto, unfolding(rv_hart::specs::Core::ticked, rv_hart::specs::Trap::enter))]
pub fn enter_interrupt(hart: &mut Hart, n: u8)
    ensures after { hart.new ≡ ticked (interrupt hart.old n) }
    ensures same { IsSameHart hart.old hart.new }
{
    hart.enter_interrupt(n);
    hart.tick();
}

/// The interrupt that is taken now, of those whose lines are set in `mip`. In most slots none is
/// ready, and then none is sought.
#[inline(always)]
pub fn taken(hart: &Hart, mip: u32) -> Option<u8>
    ensures { result ≡ chosen hart.now mip }
{
    if hart.is_ready(mip) {
        hart.pending(mip)
    } else {
        None
    }
}
