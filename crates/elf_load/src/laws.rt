//! Laws of images, each as the contract of a function that does nothing.
ghost use Rattle.std.specs.Prelude.{◌≡◌, ◌++◌, ◌∷◌, [], ℕ, List, Ok, Some, None};
ghost use Rattle.std.specs.List.{All};
ghost use Rattle.elf_load.specs.declared.image.Image.{Image};
ghost use Rattle.elf_load.specs.declared.image.Part.{Part};
ghost use Rattle.elf_load.specs.Image.{image_of};
ghost use Rattle.elf_load.specs.Laws.{StandsIn, EndsInMemory};
ghost use Rattle.elf_load.specs.Map.{byte_in, byte_at};

/// The bytes of each part of an accepted ELF file stand in the file, and no part passes the end of
/// the address space.
pub fn parts_lie_within_the_file()
    ensures bytes { (file : List ℕ) (image : Image) →
        image_of file ≡ Ok image → All (StandsIn file) image.parts }
    ensures addresses { (file : List ℕ) (image : Image) →
        image_of file ≡ Ok image → All EndsInMemory image.parts }
{}

/// A part that comes after others gives its bytes to its addresses, and leaves all others as they
/// were.
pub fn later_parts_count()
    ensures within { (parts : List Part) (part : Part) (address byte : ℕ) →
        byte_in part address ≡ Some byte → byte_at (parts ++ (part ∷ [])) address ≡ Some byte }
    ensures outside { (parts : List Part) (part : Part) (address : ℕ) →
        byte_in part address ≡ None → byte_at (parts ++ (part ∷ [])) address ≡ byte_at parts address }
{}
