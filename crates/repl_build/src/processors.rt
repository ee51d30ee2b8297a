//! The processors: their numbers, speeds and optional extensions.
ghost use Rattle.std.specs.Prelude.{◌≡◌, ◌+◌, ◌<◌, nat_lt, position};
ghost use Rattle.std.specs.List.{sum_by};
ghost use Rattle.sys_bus.specs.Limits as limit;
ghost use Rattle.repl_build.specs.Counts.{count_of, first_with};
ghost use Rattle.repl_build.specs.Processors as processor;

use crate::attributes::{is_refused, item_of, number_of};
use crate::counts::{count_of, first_with};
use crate::merge::Peripheral;
use crate::types::{PeripheralType, is_type};
use lab_num::MOST_SPEED;
use repl_read::{ItemWhat, Value};
use rv_hart::Letters;

/// The instructions of a processor in a microsecond where its entry says none.
const USUAL_SPEED: u32 = 100;

/// Where the processor of this name stands, if one has it.
fn place_of(all: &[Peripheral], name: &str) -> Option<usize>
    ensures { result ≡ position (λ p. processor.is_cpu name.now p) all.now }
{
    all.iter().position(|p| is_type(PeripheralType::Cpu, p.kind) && p.name.as_str() == name)
}

/// The number of the processor of this name, if one has it.
pub(crate) fn hart_of(all: &[Peripheral], name: &str) -> Option<u8>
    requires { count_of all.now PeripheralType.Cpu < 256 }
    ensures { result ≡ processor.hart_of all.now name.now }
{
    match place_of(all, name) {
        Some(at) => Some(count_of(&all[..at], PeripheralType::Cpu) as u8),
        None => None,
    }
}

/// The instructions of a processor in a microsecond, and 0 of all else.
pub(crate) fn speed_of(p: &Peripheral) -> u32
    ensures { result ≡ processor.speed_of p.now }
{
    if is_type(PeripheralType::Cpu, p.kind) {
        number_of("PerformanceInMips", USUAL_SPEED, p.items.items())
    } else {
        0
    }
}

/// Whether a processor's own speed is of another sort or out of range.
fn has_no_speed(before: &[Peripheral], p: &Peripheral) -> bool
    ensures { result ≡ processor.has_no_speed before.now p.now }
{
    match item_of("PerformanceInMips", p.items.items()) {
        Some(item) => is_refused(p.kind, before, p.at, &item.what),
        None => false,
    }
}

/// Whether a peripheral has another speed than the first processor.
fn has_other_speed(before: &[Peripheral], p: &Peripheral) -> bool
    ensures { result ≡ processor.has_other_speed (first_with PeripheralType.Cpu before.now) p.now }
{
    match first_with(PeripheralType::Cpu, before) {
        Some(first) => speed_of(p) != speed_of(first),
        None => false,
    }
}

/// Whether so many instructions in a microsecond and those of the processors are more than a board
/// may do.
fn are_too_fast(speed: u32, before: &[Peripheral]) -> bool
    ensures { result ≡ nat_lt limit.most_speed (speed + sum_by processor.speed_of before.now) }
{
    let mut total = u64::from(speed);
    for p in before {
        if total > u64::from(MOST_SPEED) {
            return true;
        }
        total += u64::from(speed_of(p));
    }
    total > u64::from(MOST_SPEED)
}

/// Whether a processor has another speed than the first, or one by which all are too fast. One whose
/// own speed is refused has neither.
pub(crate) fn is_out_of_step(before: &[Peripheral], p: &Peripheral) -> bool
    ensures { result ≡ processor.is_out_of_step before.now p.now }
{
    is_type(PeripheralType::Cpu, p.kind)
        && !has_no_speed(before, p)
        && (has_other_speed(before, p) || are_too_fast(speed_of(p), before))
}

/// The optional extensions of a core, if it is one that is built.
fn core_letters(text: &str) -> Option<Letters>
    ensures { result ≡ processor.core_letters text.now }
{
    match text {
        "rv32im" | "rv32im_zicsr" | "rv32im_zicsr_zifencei" => Some(Letters { a: false, c: false }),
        "rv32imc" | "rv32imc_zicsr" | "rv32imc_zicsr_zifencei" => {
            Some(Letters { a: false, c: true })
        }
        "rv32ima" | "rv32ima_zicsr" | "rv32ima_zicsr_zifencei" => {
            Some(Letters { a: true, c: false })
        }
        "rv32imac" | "rv32imac_zicsr" | "rv32imac_zicsr_zifencei" => {
            Some(Letters { a: true, c: true })
        }
        _ => None,
    }
}

fn letters_told(what: &ItemWhat) -> Option<Letters>
    ensures { result ≡ processor.letters_told what.now }
{
    match what {
        ItemWhat::Attribute {
            value: Value::Words(text),
            ..
        } => core_letters(text.as_str()),
        _ => None,
    }
}

fn own_letters(p: &Peripheral) -> Option<Letters>
    ensures { result ≡ processor.own_letters p.now }
{
    match item_of("cpuType", p.items.items()) {
        Some(item) => letters_told(&item.what),
        None => None,
    }
}

/// The optional extensions of the first processor.
pub(crate) fn first_letters(peripherals: &[Peripheral]) -> Option<Letters>
    ensures { result ≡ processor.first_letters peripherals.now }
{
    match first_with(PeripheralType::Cpu, peripherals) {
        Some(first) => own_letters(first),
        None => None,
    }
}

fn are_other_letters(first: Option<Letters>, letters: Letters) -> bool
    ensures { result ≡ processor.are_other_letters first letters }
{
    match first {
        Some(first) => !(letters.a == first.a && letters.c == first.c),
        None => false,
    }
}

fn are_no_letters(first: Option<Letters>, letters: Option<Letters>) -> bool
    ensures { result ≡ processor.are_no_letters first letters }
{
    match letters {
        Some(letters) => are_other_letters(first, letters),
        None => true,
    }
}

/// Whether this is a `cpuType` that is not built, or one of other letters than those of the first
/// processor.
pub(crate) fn is_other_core(before: &[Peripheral], what: &ItemWhat) -> bool
    ensures { result ≡ processor.is_other_core before.now what.now }
{
    match what {
        ItemWhat::Attribute {
            key,
            value: Value::Words(text),
        } => {
            key.as_str() == "cpuType"
                && are_no_letters(first_letters(before), core_letters(text.as_str()))
        }
        _ => false,
    }
}
