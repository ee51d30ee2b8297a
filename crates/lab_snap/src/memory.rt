//! Memories, of which the pages with a byte other than 0 are spelled.
ghost use Rattle.std.specs.Prelude.{
  ◌≡◌,
  ◌≤◌,
  ◌<◌,
  ◌+◌,
  ◌*◌,
  ◌++◌,
  length,
  OnOk,
  IfOk,
  MatchResult,
  List,
  ℕ,
};
ghost use Rattle.std.specs.List.{flat_map, AllByRecursion};
ghost use Rattle.page_ram.specs.Access.{page_size};
ghost use Rattle.page_ram.specs.Bytes.{zeros};
ghost use Rattle.page_ram.specs.Pages.{page_of};
ghost use Rattle.page_ram.specs.Pages as pages_spec;
ghost use Rattle.lab_encoding.specs.Form.{IsBytes, Spells};
ghost use Rattle.lab_encoding.specs.Reads.{Appends, Reads};
ghost use Rattle.lab_snap.specs.Inner.Pages.{memory_read, spell_used};
ghost use Rattle.lab_snap.specs.Inner.Pages as inner;
ghost use Rattle.lab_snap.specs.Inner.ReadsInto.{ReadsInto};
ghost use Rattle.lab_snap.specs.Memory.{memory_form, used};
ghost use Rattle.lab_snap.specs.Page.{page_form};

use lab_encoding::{ByteReader, SnapFault, Spelled};
use lab_num::NoMemory;
use page_ram::{PAGE_SIZE, PageRam};
use std::alloc::Global;

/// Each item is a byte: a proof that needs this calls it.
fn bytes_law(bytes: &[u8])
    ensures { IsBytes bytes.now }
{}

/// How many pages have a byte other than 0.
#[tactic(auto, using(crate::proofs::PageLoops::left_lemmas))]
fn used_count(memory: &PageRam, pages: u32) -> u64
    requires { length memory.now ≡ page_size * pages }
    ensures { result ≡ length (used page_size pages memory.now) }
{
    let mut count = 0;
    for k in 0..pages {
        if memory.used_page(k).is_some() {
            count += 1;
        }
    }
    count
}

/// Writes the number of a page and the page, if it has a byte other than 0.
fn encode_used(memory: &PageRam, number: u32, out: &mut Vec<u8>) -> Result<(), NoMemory>
    requires { page_size * (number + 1) ≤ length memory.now }
    ensures spelled { OnOk result
        (Appends out.old.items out.new.items (spell_used page_size number (page_of memory.now number))) }
    ensures bytes { OnOk result (AllByRecursion (λ b. b < 256) (page_of memory.now number)) }
{
    if let Some(page) = memory.used_page(number) {
        bytes_law(page);
        number.encode(out)?;
        out.extend_from_slice(page)?;
    }
    Ok(())
}

/// Writes all pages that have a byte other than 0.
fn encode_pages(memory: &PageRam, pages: u32, out: &mut Vec<u8>) -> Result<(), NoMemory>
    requires { length memory.now ≡ page_size * pages }
    ensures spelled { OnOk result (Appends out.old.items out.new.items
        (flat_map (page_form page_size).spell (used page_size pages memory.now))) }
    ensures bytes { OnOk result (AllByRecursion (λ b. b < 256) memory.now) }
{
    for k in 0..pages {
        encode_used(memory, k, out)?;
    }
    Ok(())
}

fn is_zero(page: &[u8]) -> bool
    ensures { result ≡ pages_spec.is_zero page.now }
{
    page.iter().all(|&byte| byte == 0)
}

/// Whether a page may come next: its number is not below `low`, and it has a byte other than 0.
fn is_next(pages: u32, low: u32, number: u32, page: &[u8]) -> bool
    ensures { result ≡ inner.is_next pages low (number, page.now) }
{
    low <= number && number < pages && !is_zero(page)
}

/// Reads so many pages into a memory of 0.
fn decode_pages(
    alloc: Global,
    reader: &mut ByteReader<'_>,
    count: u64,
    pages: u32,
    memory: &mut PageRam,
) -> Result<(), SnapFault>
    requires { memory.old ≡ zeros (page_size * pages) }
    ensures reads { ReadsInto (memory_read page_size pages count reader.old) memory.new reader.new result }
    ensures size { length memory.new ≡ page_size * pages }
{
    let mut low = 0;
    for _ in 0..count {
        let number = u32::decode(alloc, reader)?;
        let page = reader.front(PAGE_SIZE as usize)?;
        if !is_next(pages, low, number, page) {
            return Err(SnapFault::Bad);
        }
        memory.put_page(number, page)?;
        low = number + 1;
    }
    Ok(())
}

/// Reads the memory of so many pages that is spelled at the front, as a part of a larger value.
fn decode_as_part(
    alloc: Global,
    pages: u32,
    reader: &mut ByteReader<'_>,
) -> Result<PageRam, SnapFault>
    requires some { 1 ≤ pages }
    requires few { pages ≤ 16384 }
    ensures reads { Reads ((memory_form pages).parse reader.old) reader.new result }
    ensures size { IfOk result (λ memory. length memory ≡ page_size * pages) }
{
    let count = u64::decode(alloc, reader)?;
    let mut memory = PageRam::new(alloc, PAGE_SIZE * pages)?;
    decode_pages(alloc, reader, count, pages, &mut memory)?;
    Ok(memory)
}

/// Writes the spelling of a memory of so many pages at the end. Where memory runs out a part of it may
/// stand there.
pub fn encode_memory(memory: &PageRam, pages: u32, out: &mut Vec<u8>) -> Result<(), NoMemory>
    requires { length memory.now ≡ page_size * pages }
    ensures spelled { OnOk result (Appends out.old.items out.new.items ((memory_form pages).spell memory.now)) }
    ensures fits { OnOk result ((memory_form pages).Fits memory.now) }
{
    used_count(memory, pages).encode(out)?;
    encode_pages(memory, pages, out)?;
    Ok(())
}

/// Reads the memory of so many pages that is spelled at the front. What is read is spelled so (`found`),
/// and what is spelled so is read, whatever follows it, unless memory runs out (`only`): so `Bad` comes
/// only where no memory is spelled there. `part` says the same for a memory that is read as a part of
/// a larger value.
pub fn decode_memory(
    alloc: Global,
    pages: u32,
    reader: &mut ByteReader<'_>,
) -> Result<PageRam, SnapFault>
    requires some { 1 ≤ pages }
    requires few { pages ≤ 16384 }
    ensures found { IfOk result (λ memory.
        IsBytes reader.old → Spells (memory_form pages) reader.old (memory, reader.new)) }
    ensures only { (memory rest : List ℕ) → (memory_form pages).Fits memory →
        reader.old ≡ (memory_form pages).spell memory ++ rest →
        MatchResult result (λ loaded. (loaded ≡ memory) × (reader.new ≡ rest)) (λ fault. fault ≡ SnapFault.Memory) }
    ensures part { Reads ((memory_form pages).parse reader.old) reader.new result }
    ensures size { IfOk result (λ memory. length memory ≡ page_size * pages) }
{
    decode_as_part(alloc, pages, reader)
}

/// No spelling of a memory of so many pages begins another, and different memories have different
/// spellings. This function does nothing when it runs: a proof that needs the law calls it.
pub fn one_memory_spelling(pages: u32)
    requires { pages ≤ 16384 }
    ensures { (a b x y : List ℕ) → (memory_form pages).Fits a → (memory_form pages).Fits b →
        (memory_form pages).spell a ++ x ≡ (memory_form pages).spell b ++ y → (a ≡ b) × (x ≡ y) }
{}
