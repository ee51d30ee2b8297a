//! The memory map of a PLIC (RISC-V PLIC 1.0.0, "Memory Map").
ghost use Rattle.std.specs.Prelude.{◌≡◌, ◌<◌, IfSome};
ghost use Rattle.plic.specs.Inner.There.{IsThere};
ghost use Rattle.plic.specs.Map.{index_in, reached};

/// A register, of the sources from 1 and the contexts from 0.
#[derive(Clone, Copy)]
pub enum Register {
    Priority { source: u8 },
    Pending { word: u8 },
    Enable { context: u8, word: u8 },
    Threshold { context: u8 },
    Claim { context: u8 },
}

/// The width of the accesses that the registers answer, in bytes.
const WORD: u8 = 4;

/// The address of the priority of source 1. The next source's is 4 bytes further.
const PRIORITY: u32 = 0x00_0004;

/// The address of the pending bits of the sources below 32. Those of the next 32 are 4 bytes further.
const PENDING: u32 = 0x00_1000;

/// How many words of pending bits there are.
const PENDING_WORDS: u8 = 4;

/// The addresses of context 0's enable bits, by words.
const ENABLE_0: u32 = 0x00_2000;

const ENABLE_1: u32 = 0x00_2004;

const ENABLE_2: u32 = 0x00_2008;

const ENABLE_3: u32 = 0x00_200C;

/// How far the enable bits of the next context are.
const ENABLE_STEP: u32 = 0x80;

/// The address of context 0's threshold.
const THRESHOLD: u32 = 0x20_0000;

/// The address at which context 0 claims and completes.
const CLAIM: u32 = 0x20_0004;

/// How far the threshold of the next context is, and where it claims.
const CONTEXT_STEP: u32 = 0x1000;

/// The place of an address in a bank of registers.
#[tactic(auto, unfolding(crate::specs::Map::index_in))]
fn index_in(first: u32, step: u32, count: u8, at: u32) -> Option<u8>
    requires { 0 < step }
    ensures place { result ≡ index_in first step count at }
    ensures within { IfSome result (λ i. i < count) }
{
    if at < first {
        return None;
    }
    let offset = at - first;
    if offset % step != 0 || offset / step >= u32::from(count) {
        return None;
    }
    Some((offset / step) as u8)
}

/// The register that an access reaches, with so many sources and contexts.
#[tactic(auto, unfolding(crate::specs::Map::reached))]
pub fn reached(sources: u8, contexts: u8, at: u32, width: u8) -> Option<Register>
    requires { sources < 128 }
    ensures register { result ≡ reached sources contexts at width }
    ensures there { IfSome result (IsThere sources contexts) }
{
    if width != WORD {
        return None;
    }
    if let Some(i) = index_in(PRIORITY, 4, sources, at) {
        return Some(Register::Priority { source: i + 1 });
    }
    if let Some(word) = index_in(PENDING, 4, PENDING_WORDS, at) {
        return Some(Register::Pending { word });
    }
    if let Some(context) = index_in(ENABLE_0, ENABLE_STEP, contexts, at) {
        return Some(Register::Enable { context, word: 0 });
    }
    if let Some(context) = index_in(ENABLE_1, ENABLE_STEP, contexts, at) {
        return Some(Register::Enable { context, word: 1 });
    }
    if let Some(context) = index_in(ENABLE_2, ENABLE_STEP, contexts, at) {
        return Some(Register::Enable { context, word: 2 });
    }
    if let Some(context) = index_in(ENABLE_3, ENABLE_STEP, contexts, at) {
        return Some(Register::Enable { context, word: 3 });
    }
    if let Some(context) = index_in(THRESHOLD, CONTEXT_STEP, contexts, at) {
        return Some(Register::Threshold { context });
    }
    let context = index_in(CLAIM, CONTEXT_STEP, contexts, at)?;
    Some(Register::Claim { context })
}
