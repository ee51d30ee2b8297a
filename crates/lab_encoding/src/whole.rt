//! Bytes that are the spelling of one value, and of nothing else.
ghost use Rattle.std.specs.Prelude.{◌≡◌, ◌++◌, IfOk, List, MatchResult, OnOk, ℕ};
ghost use Rattle.lab_encoding.specs.Inner.Whole.{Gives, value_of};

use crate::byte_reader::ByteReader;
use crate::fault::SnapFault;
use crate::spelled::Spelled;
use lab_num::NoMemory;
use std::alloc::Global;

/// The spelling of the value.
pub fn save<T: Spelled>(alloc: Global, value: &T) -> Result<Vec<u8>, NoMemory>
    ensures spelled { IfOk result (λ bytes. bytes.items ≡ T.form.spell value.now) }
    ensures fits { OnOk result (T.form.Fits value.now) }
{
    let mut out = Vec::new(alloc);
    value.encode(&mut out)?;
    Ok(out)
}

/// The value that the bytes spell, all of them.
fn read<T: Spelled + Drop>(alloc: Global, bytes: &[u8]) -> Result<T, SnapFault>
    ensures { Gives (value_of T.form bytes.now) result }
{
    let mut reader = ByteReader::new(bytes);
    let value = T::decode(alloc, &mut reader)?;
    if !reader.is_empty() {
        return Err(SnapFault::Bad);
    }
    Ok(value)
}

/// The value that the bytes spell, all of them. What is loaded is spelled so (`found`), and what is
/// spelled so is loaded, unless memory runs out (`only`): so `Bad` comes only where the bytes are no
/// spelling, and loading what was saved gives an equal value.
pub fn load<T: Spelled + Drop>(alloc: Global, bytes: &[u8]) -> Result<T, SnapFault>
    ensures found { IfOk result (λ value. T.form.Fits value × (bytes.now ≡ T.form.spell value)) }
    ensures only { (value : T) → T.form.Fits value → bytes.now ≡ T.form.spell value →
        MatchResult result (λ loaded. loaded ≡ value) (λ fault. fault ≡ SnapFault.Memory) }
{
    read(alloc, bytes)
}

/// No spelling begins another, and different values have different spellings. This function does
/// nothing when it runs: a proof that needs the law calls it.
pub fn one_spelling<T: Spelled>()
    ensures { (a b : T) (x y : List ℕ) → T.form.Fits a → T.form.Fits b →
        T.form.spell a ++ x ≡ T.form.spell b ++ y → (a ≡ b) × (x ≡ y) }
{}
