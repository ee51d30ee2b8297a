//! Words that were met before.
ghost use Rattle.std.specs.Prelude.{◌≡◌, ℕ, IfErr, List, OnOk, ◌||◌};
ghost use Rattle.std.specs.Str.{bytes_eq};
ghost use Rattle.repl_build.specs.Inner.Seen.{has_word};

use repl_read::PlatFault;
use std::collections::BTreeMap;

/// Words, each once.
pub(crate) type Seen<'a> = BTreeMap<&'a str, ()>;

/// Whether a word is among them.
pub(crate) fn has_word(seen: &Seen<'_>, word: &str) -> bool
    ensures { result ≡ has_word seen.now word.now }
{
    seen.get(word).is_some()
}

/// Puts a word among them.
pub(crate) fn add_word<'a>(seen: &mut Seen<'a>, word: &'a str) -> Result<(), PlatFault>
    ensures ok { OnOk result ((q : List ℕ) →
        has_word seen.new q ≡ (bytes_eq word.now q || has_word seen.old q)) }
    ensures err { IfErr result (λ fault. fault ≡ PlatFault.Memory) }
{
    seen.insert(word, ())?;
    Ok(())
}
