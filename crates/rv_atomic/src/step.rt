//! A slot of one of the harts that share a memory.
ghost use Rattle.std.specs.Prelude.{◌≡◌, ◌%◌, ◌<◌, length, OnOk, OnErr};
ghost use Rattle.rv_exec.specs.Effect.{AsksBus, bus_after, core_after, effect};
ghost use Rattle.rv_exec.specs.Fetched.{IsPerformable};
ghost use Rattle.rv_exec.specs.Laws.{IsSameHart};
ghost use Rattle.rv_hart.specs.Core.{reg};
ghost use Rattle.rv_atomic.specs.Means.{IsAtomic};
ghost use Rattle.rv_atomic.specs.Watch.{after_store, has_reserved};
ghost use Rattle.rv_atomic.specs.AtomicEffect.{
  address,
  atomic_effect,
  gives_and_stores,
  store_conditional,
};
ghost use Rattle.rv_atomic.specs.SharedEffect.{IsSharable, after_effect, shared_effect};

use crate::atomic::{Atomic, AtomicOp};
use crate::combination::combined;
use crate::ending::{access_fault_cause, misaligned_cause, retire, trap};
use crate::shared::Shared;
use crate::span::span_stored;
use crate::watch::Watch;
use lab_num::NoMemory;
use rv_exec::{Bus, Fetched, perform};
use rv_hart::{Hart, Lines, laws};

/// Whether a hart has reserved this word.
fn has_reserved(watch: &Watch, number: u8, at: u32) -> bool
    requires { number < length watch.now }
    ensures { result ≡ has_reserved watch.now number at }
{
    match watch.reserved(number) {
        Some(word) => word == at,
        None => false,
    }
}

/// Stores a word at the address of an atomic instruction, whose register gets another. What the
/// other harts have reserved of the word ends.
fn store_word<B: Bus>(
    hart: &mut Hart,
    number: u8,
    watch: &mut Watch,
    a: &Atomic,
    new: u32,
    given: u32,
    bus: &mut B,
) -> Result<(), NoMemory>
    requires number { number < length watch.old }
    requires registers { IsAtomic a.now }
    requires aligned { address hart.old a.now % 4 ≡ 0 }
    ensures core { let effect = gives_and_stores hart.old a.now given new in
        OnOk result (hart.new ≡ core_after B.answer bus.old effect) }
    ensures bus { let effect = gives_and_stores hart.old a.now given new in
        OnOk result (bus.new ≡ bus_after B.loaded B.stored bus.old effect) }
    ensures watch { OnOk result (watch.new ≡ after_store number (address hart.old a.now) 4 watch.old) }
    ensures same { OnOk result (IsSameHart hart.old hart.new) }
    ensures core_err { OnErr result (hart.new ≡ hart.old) }
    ensures bus_err { OnErr result (bus.new ≡ bus.old) }
    ensures watch_err { OnErr result (watch.new ≡ watch.old) }
{
    let at = hart.register(a.rs1);
    bus.store(at, 4, new)?;
    watch.stored(number, at, 4);
    retire(hart, a.rd, given);
    Ok(())
}

/// Stores where the word is reserved, and ends the reservation either way.
fn store_conditional<B: Bus>(
    hart: &mut Hart,
    number: u8,
    watch: &mut Watch,
    a: &Atomic,
    bus: &mut B,
) -> Result<(), NoMemory>
    requires number { number < length watch.old }
    requires registers { IsAtomic a.now }
    requires aligned { address hart.old a.now % 4 ≡ 0 }
    ensures core { let shared = store_conditional hart.old number watch.old a.now in
        OnOk result (hart.new ≡ core_after B.answer bus.old shared.effect) }
    ensures bus { let shared = store_conditional hart.old number watch.old a.now in
        OnOk result (bus.new ≡ bus_after B.loaded B.stored bus.old shared.effect) }
    ensures watch { let shared = store_conditional hart.old number watch.old a.now in
        OnOk result (watch.new ≡ shared.watch) }
    ensures same { OnOk result (IsSameHart hart.old hart.new) }
    ensures asked { OnErr result (AsksBus (store_conditional hart.old number watch.old a.now).effect) }
    ensures core_err { OnErr result (hart.new ≡ hart.old) }
    ensures bus_err { OnErr result (bus.new ≡ bus.old) }
    ensures watch_err { OnErr result (watch.new ≡ watch.old) }
{
    if has_reserved(watch, number, hart.register(a.rs1)) {
        let new = hart.register(a.rs2);
        store_word(hart, number, watch, a, new, 0, bus)?;
    } else {
        retire(hart, a.rd, 1);
    }
    watch.put(number, None);
    Ok(())
}

/// Does an atomic instruction, or enters the trap of its exception.
#[tactic(auto, unfolding(crate::specs::AtomicEffect::atomic_effect))]
fn step_atomic<B: Bus>(
    hart: &mut Hart,
    number: u8,
    watch: &mut Watch,
    a: &Atomic,
    bus: &mut B,
) -> Result<(), NoMemory>
    requires number { number < length watch.old }
    requires registers { IsAtomic a.now }
    ensures core { let shared = atomic_effect (B.fetched bus.old) hart.old number watch.old a.now in
        OnOk result (hart.new ≡ core_after B.answer bus.old shared.effect) }
    ensures bus { let shared = atomic_effect (B.fetched bus.old) hart.old number watch.old a.now in
        OnOk result (bus.new ≡ bus_after B.loaded B.stored bus.old shared.effect) }
    ensures watch { let shared = atomic_effect (B.fetched bus.old) hart.old number watch.old a.now in
        OnOk result (watch.new ≡ shared.watch) }
    ensures same { OnOk result (IsSameHart hart.old hart.new) }
    ensures asked { let shared = atomic_effect (B.fetched bus.old) hart.old number watch.old a.now in
        OnErr result (AsksBus shared.effect) }
    ensures core_err { OnErr result (hart.new ≡ hart.old) }
    ensures bus_err { OnErr result (bus.new ≡ bus.old) }
    ensures watch_err { OnErr result (watch.new ≡ watch.old) }
{
    let at = hart.register(a.rs1);
    if at % 4 != 0 {
        trap(hart, misaligned_cause(a.op), at);
        return Ok(());
    }
    let Some(word) = bus.fetch(at) else {
        trap(hart, access_fault_cause(a.op), at);
        return Ok(());
    };
    match a.op {
        AtomicOp::Lr => {
            watch.put(number, Some(at));
            retire(hart, a.rd, word);
            Ok(())
        }
        AtomicOp::Sc => store_conditional(hart, number, watch, a, bus),
        _ => {
            let new = combined(a.op, word, hart.register(a.rs2));
            store_word(hart, number, watch, a, new, word, bus)
        }
    }
}

/// Does what was fetched by the rules of a hart alone. What it stores ends the reservations that
/// the other harts have of a word that it reaches.
fn step_plain<B: Bus>(
    hart: &mut Hart,
    number: u8,
    watch: &mut Watch,
    what: Fetched,
    bus: &mut B,
    lines: Lines,
) -> Result<(), NoMemory>
    requires number { number < length watch.old }
    requires performable { IsPerformable hart.old.letters what }
    ensures core { OnOk result (hart.new ≡ core_after B.answer bus.old (effect hart.old what lines)) }
    ensures bus { OnOk result (bus.new ≡ bus_after B.loaded B.stored bus.old (effect hart.old what lines)) }
    ensures watch { OnOk result (watch.new ≡ after_effect number (effect hart.old what lines) watch.old) }
    ensures same { OnOk result (IsSameHart hart.old hart.new) }
    ensures asked { OnErr result (AsksBus (effect hart.old what lines)) }
    ensures core_err { OnErr result (hart.new ≡ hart.old) }
    ensures bus_err { OnErr result (bus.new ≡ bus.old) }
    ensures watch_err { OnErr result (watch.new ≡ watch.old) }
{
    let span = span_stored(hart, &what);
    perform(hart, what, bus, lines)?;
    if let Some(span) = span {
        watch.stored(number, span.at, span.width);
    }
    Ok(())
}

/// Does what the hart of this number does in a slot, where it shares its memory with the other
/// harts of the watch: an atomic instruction (RISC-V Unprivileged ISA 20191213, chapter 8), or what
/// was fetched, as `perform` does it. A store ends the reservations that the other harts have of a
/// word that it reaches; a trap ends none.
///
/// An atomic instruction traps where its address is not divisible by 4, or no memory holds the word:
/// what a fetch does not answer, as a device's register, is outside memory, and the bus is not asked
/// for a load or a store there.
///
/// `NoMemory` comes only where the bus refuses the load or the store of the instruction.
#[tactic(auto, unfolding(crate::specs::SharedEffect::shared_effect))]
pub fn step_shared<B: Bus>(
    hart: &mut Hart,
    number: u8,
    watch: &mut Watch,
    what: Shared,
    bus: &mut B,
    lines: Lines,
) -> Result<(), NoMemory>
    requires number { number < length watch.old }
    requires sharable { IsSharable hart.old.letters what }
    ensures core { let shared = shared_effect (B.fetched bus.old) hart.old number watch.old what lines in
        OnOk result (hart.new ≡ core_after B.answer bus.old shared.effect) }
    ensures bus { let shared = shared_effect (B.fetched bus.old) hart.old number watch.old what lines in
        OnOk result (bus.new ≡ bus_after B.loaded B.stored bus.old shared.effect) }
    ensures watch { let shared = shared_effect (B.fetched bus.old) hart.old number watch.old what lines in
        OnOk result (watch.new ≡ shared.watch) }
    ensures asked { let shared = shared_effect (B.fetched bus.old) hart.old number watch.old what lines in
        OnErr result (AsksBus shared.effect) }
    ensures core_err { OnErr result (hart.new ≡ hart.old) }
    ensures bus_err { OnErr result (bus.new ≡ bus.old) }
    ensures watch_err { OnErr result (watch.new ≡ watch.old) }

    // What each slot leaves, whatever it does.
    ensures zero { OnOk result (reg hart.new 0 ≡ 0) }
    ensures same { OnOk result (IsSameHart hart.old hart.new) }
{
    match what {
        Shared::Plain(what) => step_plain(hart, number, watch, what, bus, lines)?,
        Shared::Atomic(a) => step_atomic(hart, number, watch, &a, bus)?,
    }
    laws::zero_register(hart);
    Ok(())
}
