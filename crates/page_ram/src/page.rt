//! Pages of a memory.
ghost use Rattle.std.specs.Prelude.{◌≡◌, Some, None, OnOk, OnErr};
ghost use Rattle.page_ram.specs.Inner.Directory.{zero_page, page_bytes};
ghost use Rattle.page_ram.specs.Pages as pages;

use crate::maybe_box::MaybeBox;
use lab_num::NoMemory;
use std::alloc::Global;

/// The size of a page, in bytes. A memory has whole pages.
pub const PAGE_SIZE: u32 = 4096;

/// The same, as what counts the items of a slice.
pub const PAGE: usize = PAGE_SIZE as usize;

/// The bytes of a page.
pub type Page = [u8; PAGE];

/// Gives a page its memory, if it has none. No memory leaves it as it was.
#[inline]
pub fn make_present(page: &mut MaybeBox<Page>, alloc: Global) -> Result<(), NoMemory>
    ensures ok { OnOk result (page.new.held ≡ Some (page_bytes page.old.held)) }
    ensures err { OnErr result (page.new ≡ page.old) }
{
    if page.load().is_none() {
        allocate(page, alloc)?;
    }
    Ok(())
}

/// Gives a page that has none its memory: bytes of 0.
#[cold]
#[inline(never)]
fn allocate(page: &mut MaybeBox<Page>, alloc: Global) -> Result<(), NoMemory>
    requires { page.old.held ≡ None }
    ensures ok { OnOk result (page.new.held ≡ Some zero_page) }
    ensures err { OnErr result (page.new ≡ page.old) }
{
    let zeros = Box::new(alloc, [0; PAGE])?;
    *page = MaybeBox::make(alloc, Some(zeros));
    Ok(())
}

/// Whether all bytes of a page are 0.
pub fn is_zero(page: &[u8]) -> bool
    ensures { result ≡ pages.is_zero page.now }
{
    page.iter().all(|&byte| byte == 0)
}
