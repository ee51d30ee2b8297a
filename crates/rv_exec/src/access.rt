//! Loads and stores (RISC-V Unprivileged ISA 20191213, section 2.6).
ghost use Rattle.std.specs.Prelude.{◌≡◌, ◌==◌, ◌%◌, ◌^◌, ◌<◌, OnOk, OnErr};
ghost use Rattle.std.specs.Int.{w8, w16};
ghost use Rattle.rv_decode.specs.Means.{IsInstr};
ghost use Rattle.rv_hart.specs.Core.{IsSize};
ghost use Rattle.rv_exec.specs.Word.{extended};
ghost use Rattle.rv_exec.specs.Access.{IsWidth, shaped};
ghost use Rattle.rv_exec.specs.Inner.Widths.{IsWidthOf};
ghost use Rattle.rv_exec.specs.Effect.{AsksBus, bus_after, core_after, loads, stores};

use crate::alu::add;
use crate::bus::{Bus, low_bytes};
use crate::ending::{advance, finish, trap};
use lab_num::NoMemory;
use rv_decode::Instr;
use rv_hart::{Exception, Hart};

/// How a loaded number fills a register.
#[derive(Clone, Copy)]
pub enum Shape {
    /// With zeros above.
    Unsigned,
    /// A byte, with its sign above.
    SignedByte,
    /// A half word, with its sign above.
    SignedHalf,
}

/// A byte, with its sign above.
fn extend_byte(answer: u32) -> u32
    requires { answer < 256 }
    ensures { result ≡ extended w8 answer }
{
    i32::from((answer as u8).cast_signed()).cast_unsigned()
}

/// A half word, with its sign above.
fn extend_half(answer: u32) -> u32
    requires { answer < 65536 }
    ensures { result ≡ extended w16 answer }
{
    i32::from((answer as u16).cast_signed()).cast_unsigned()
}

/// The word that a register gets of a loaded number.
fn shape_word(shape: Shape, width: u8, answer: u32) -> u32
    requires width { IsWidthOf shape width }
    requires fits { answer < 256 ^ width }
    ensures { result ≡ shaped shape answer }
{
    match shape {
        Shape::Unsigned => answer,
        Shape::SignedByte => extend_byte(answer),
        Shape::SignedHalf => extend_half(answer),
    }
}

/// Whether an address is divisible by a width.
fn is_aligned(at: u32, width: u8) -> bool
    requires { IsWidth width }
    ensures { result ≡ (at % width == 0) }
{
    match width {
        1 => true,
        2 => at % 2 == 0,
        _ => at % 4 == 0,
    }
}

/// Loads into a register.
#[inline(always)]
pub fn load<B: Bus>(
    hart: &mut Hart,
    bus: &mut B,
    i: &Instr,
    size: u8,
    width: u8,
    shape: Shape,
) -> Result<(), NoMemory>
    requires fields { IsInstr i.now }
    requires size { IsSize hart.old.letters size }
    requires width { IsWidthOf shape width }
    ensures core { let effect = loads hart.old i.now size width shape in
        OnOk result (hart.new ≡ core_after B.answer bus.old effect) }
    ensures bus { let effect = loads hart.old i.now size width shape in
        OnOk result (bus.new ≡ bus_after B.loaded B.stored bus.old effect) }
    ensures asked { OnErr result (AsksBus (loads hart.old i.now size width shape)) }
    ensures core_err { OnErr result (hart.new ≡ hart.old) }
    ensures bus_err { OnErr result (bus.new ≡ bus.old) }
{
    let at = add(hart.register(i.rs1), i.imm);
    if !is_aligned(at, width) {
        trap(hart, Exception::LoadAddressMisaligned, at);
        return Ok(());
    }
    let answer = bus.load(at, width)?;
    finish(hart, size, i.rd, shape_word(shape, width, answer));
    Ok(())
}

/// Stores the lower bytes of a register.
#[inline(always)]
pub fn store<B: Bus>(
    hart: &mut Hart,
    bus: &mut B,
    i: &Instr,
    size: u8,
    width: u8,
) -> Result<(), NoMemory>
    requires fields { IsInstr i.now }
    requires size { IsSize hart.old.letters size }
    requires width { IsWidth width }
    ensures core { let effect = stores hart.old i.now size width in
        OnOk result (hart.new ≡ core_after B.answer bus.old effect) }
    ensures bus { let effect = stores hart.old i.now size width in
        OnOk result (bus.new ≡ bus_after B.loaded B.stored bus.old effect) }
    ensures asked { OnErr result (AsksBus (stores hart.old i.now size width)) }
    ensures core_err { OnErr result (hart.new ≡ hart.old) }
    ensures bus_err { OnErr result (bus.new ≡ bus.old) }
{
    let at = add(hart.register(i.rs1), i.imm);
    if !is_aligned(at, width) {
        trap(hart, Exception::StoreAddressMisaligned, at);
        return Ok(());
    }
    bus.store(at, width, low_bytes(hart.register(i.rs2), width))?;
    advance(hart, size);
    Ok(())
}
