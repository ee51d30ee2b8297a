//! Laws of Intel HEX files, each as the contract of a function that does nothing.
ghost use Rattle.std.specs.Prelude.{◌≡◌, ◌<◌, ◌≤◌, ◌+◌, ◌%◌, ℕ, List, length, slice_index, Some};
ghost use Rattle.elf_load.specs.Map.{byte_at};
ghost use Rattle.ihex_load.specs.Image.{image_of, placed, space_size};
ghost use Rattle.ihex_load.specs.Laws.{AgreeToTheEnd};

/// Files that have the same lines up to a record of type 01 have the same image or fault, whatever
/// comes after it.
pub fn lines_after_the_end_have_no_meaning()
    ensures { (file other : List ℕ) → AgreeToTheEnd file other → image_of file ≡ image_of other }
{}

/// Each byte of a data record stands at its address modulo 2^32.
pub fn addresses_wrap()
    ensures { (at i : ℕ) (bytes : List ℕ) →
        at < space_size → i < length bytes → length bytes ≤ space_size →
        byte_at (placed at bytes) ((at + i) % space_size) ≡ Some (slice_index bytes i) }
{}
