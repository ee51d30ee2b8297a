//! Sets of interrupt sources, a bit for each.
ghost use Rattle.std.specs.Prelude.{◌≡◌, ◌<◌, IsTrue};
ghost use Rattle.plic.specs.Gateway.{raised};
ghost use Rattle.plic.specs.Sources.{all_sources, has, union, with_word, without, word_of};

/// The sources of a word of a register.
const WORD: u128 = 0xFFFF_FFFF;

pub fn has(set: u128, source: u32) -> bool
    ensures has { result ≡ has set source }
    ensures within { IsTrue result → source < 128 }
{
    source < 128 && (set >> source) & 1 == 1
}

/// The sources 1 to n.
pub fn all_sources(n: u32) -> u128
    requires { n < 128 }
    ensures { result ≡ all_sources n }
{
    ((1u128 << n) - 1) * 2
}

pub fn union(a: u128, b: u128) -> u128
    ensures { result ≡ union a b }
{
    a | b
}

/// The set without a source.
pub fn without(set: u128, source: u32) -> u128
    requires { source < 128 }
    ensures { result ≡ without set source }
{
    set & !(1 << source)
}

/// The sources from 32 * k on, as a word.
pub fn word_of(set: u128, k: u32) -> u32
    requires { k < 4 }
    ensures { result ≡ word_of set k }
{
    ((set >> (32 * k)) & WORD) as u32
}

/// The set with the sources from 32 * k on replaced, of the sources 1 to n.
pub fn with_word(n: u32, set: u128, k: u32, word: u32) -> u128
    requires sources { n < 128 }
    requires word { k < 4 }
    ensures { result ≡ with_word n set k word }
{
    let shift = 32 * k;
    let others = set & !(WORD << shift);
    all_sources(n) & (others | u128::from(word) << shift)
}

/// The sources 1 to n whose lines are up while their gateways are open.
pub fn raised(n: u32, shut: u128, lines: u128) -> u128
    requires { n < 128 }
    ensures { result ≡ raised n shut lines }
{
    all_sources(n) & lines & !shut
}
