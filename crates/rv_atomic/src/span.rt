//! The bytes that an instruction other than an atomic one stores.
ghost use Rattle.std.specs.Prelude.{◌≡◌, ◌==◌, ℕ, ◌<◌, IfSome, List, Option, false};
ghost use Rattle.rv_decode.specs.Immediate.{field};
ghost use Rattle.rv_hart.specs.declared.csr.Lines.{Lines};
ghost use Rattle.rv_exec.specs.Effect.{effect, effect_by, of_word};
ghost use Rattle.rv_decode.specs.Means.{IsInstr};
ghost use Rattle.rv_exec.specs.Fetched.{IsPerformable};
ghost use Rattle.rv_atomic.specs.Span.{span_of};
ghost use Rattle.rv_atomic.specs.Inner.StoreWidth.{aligned_span, store_width};
ghost use Rattle.rv_atomic.specs.Laws.{EndsNone};

use rv_decode::{Instr, Op, bits, laws};
use rv_exec::Fetched;
use rv_hart::Hart;

/// The opcode STORE.
const OPCODE: u32 = 0x23;

/// So many bytes from an address on.
#[derive(Clone, Copy)]
pub struct Span {
    pub at: u32,
    pub width: u8,
}

/// How many bytes an instruction stores, if it is a store.
fn store_width(op: Op) -> Option<u8>
    ensures value { result ≡ store_width op }
    ensures some { IfSome result (λ width. 0 < width) }
{
    match op {
        Op::Sb => Some(1),
        Op::Sh => Some(2),
        Op::Sw => Some(4),
        _ => None,
    }
}

/// The bytes from an address on, if it is divisible by how many there are: 1, 2 or 4.
fn aligned_span(at: u32, width: u8) -> Option<Span>
    requires { 0 < width }
    ensures { result ≡ aligned_span at width }
{
    if at % u32::from(width) == 0 {
        Some(Span { at, width })
    } else {
        None
    }
}

/// The bytes that an instruction stores on a hart, if it stores any.
fn span_of_instr(hart: &Hart, i: &Instr) -> Option<Span>
    requires { IsInstr i.now }
    ensures { (size word : ℕ) → (lines : Lines) →
        result ≡ span_of (effect_by i.now.op hart.now i.now size word lines) }
{
    let at = hart.register(i.rs1).wrapping_add(i.imm);
    match store_width(i.op) {
        Some(width) => aligned_span(at, width),
        None => None,
    }
}

/// The bytes that what was fetched stores on a hart, if it stores any. A store that traps stores
/// none.
#[tactic(auto, unfolding(rv_exec::specs::Effect::effect))]
pub fn span_stored(hart: &Hart, what: &Fetched) -> Option<Span>
    requires { IsPerformable hart.now.letters what.now }
    ensures { (lines : Lines) → result ≡ span_of (effect hart.now what.now lines) }
{
    match what {
        Fetched::Fault(_) | Fetched::Bad(_) => None,
        Fetched::Good { instr, .. } => {
            laws::valid_fits();
            span_of_instr(hart, instr)
        }
    }
}

/// Whether a word has the opcode of the stores. Any other word ends no reservation, unless it is an atomic instruction.
#[inline]
pub fn is_store(word: u32) -> bool
    ensures value { result ≡ (field word 0 7 == 0x23) }
    ensures plain { result ≡ false → (watch : List (Option ℕ)) → EndsNone watch (of_word word) }
{
    bits(word, 0, 7) == OPCODE
}
