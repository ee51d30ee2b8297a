//! A page that was refused, and pages that were dropped.
ghost use Rattle.std.specs.Prelude.{◌≡◌, ◌+◌, ◌≤◌, length, IsTrue};
ghost use Rattle.page_ram.specs.Access.{IsWidth};

use lab_num::NoMemory;
use page_ram::PageRam;
use std::alloc::Global;
use std::test::Fail;

/// A memory of two pages.
#[derive(Drop)]
struct TwoPages {
    ram: PageRam,
    ghost size: { length ram ≡ 8192 },
}

fn two_pages(alloc: Global) -> Result<TwoPages, NoMemory> {
    let ram = PageRam::new(alloc, 8192)?;
    Ok(TwoPages { ram })
}

/// Whether a number of so many bytes may stand at a place.
fn is_place(at: u32, width: u8) -> bool
    ensures width { IsTrue result → IsWidth width }
    ensures fits { IsTrue result → at + width ≤ 8192 }
{
    (width == 1 || width == 2 || width == 4) && at < 8192 && at + u32::from(width) <= 8192
}

fn store(pages: &mut TwoPages, at: u32, width: u8, value: u32) -> Result<(), NoMemory> {
    if is_place(at, width) && at % 4096 + u32::from(width) <= 4096 {
        pages.ram.store(at, width, value)?;
    }
    Ok(())
}

/// Whether all bytes are 0.
fn is_clear(pages: &TwoPages) -> bool {
    for i in 0..8192 {
        if pages.ram.load(i, 1) != 0 {
            return false;
        }
    }
    true
}

/// Stores in the first pages of a new memory, as many as are named, and drops it. The answer is
/// whether it was 0.
fn drops_after(alloc: Global, stored: u32) -> Result<bool, NoMemory> {
    let mut pages = two_pages(alloc)?;
    let clear = is_clear(&pages);
    for page in 0..stored.min(2) {
        store(&mut pages, page * 4096, 4, 0xFFFF_FFFF)?;
    }
    Ok(clear)
}

/// Whether a load of four bytes at 4100 gives this.
fn holds(pages: &TwoPages, value: u32) -> bool {
    is_place(4100, 4) && pages.ram.load(4100, 4) == value
}

/// Where the allocator refuses the page (docs/TESTING.md), nothing has changed.
#[test]
fn a_refused_page_changes_nothing_and_a_dropped_one_leaves_nothing(
    rt: HostRuntime,
) -> Result<(), Fail> {
    let mut pages = two_pages(rt.alloc())?;
    let refused = store(&mut pages, 4100, 2, 0xBEEF).is_err();
    let loaded = if refused { 0 } else { 0xBEEF };
    assert!(rt; holds(&pages, loaded));
    println!(rt; "the page was refused: {refused}; 4 bytes at 4100: {loaded:#x}")?;
    for stored in [0, 1, 2, 0] {
        let clear = drops_after(rt.alloc(), stored)?;
        assert!(rt; clear);
    }
    Ok(())
}
