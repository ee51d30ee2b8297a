//! Laws of loadings, as the contract of a function that does nothing.
ghost use Rattle.std.specs.Prelude.{ℕ, ◌≤◌, List, length};
ghost use Rattle.lab_io.specs.Held.{Held};
ghost use Rattle.repl_files.specs.Loading.{load};
ghost use Rattle.repl_files.specs.Laws.{EndsBy, AllFrom};

/// A command reads at most 64 platform files. The only name that may hold nothing is the last, and
/// it holds nothing just where the loading is absent. Each entry that is joined is one of the file
/// that was read at its number, and none is a `using` line.
pub fn loading_laws()
    ensures few { (held : Held) (bodies : ℕ) (name : List ℕ) →
        length (load held bodies name).names ≤ 64 }
    ensures ends { (held : Held) (bodies : ℕ) (name : List ℕ) →
        EndsBy held (load held bodies name).names (load held bodies name).outcome }
    ensures entries { (held : Held) (bodies : ℕ) (name : List ℕ) →
        AllFrom held (load held bodies name).names (load held bodies name).outcome }
{}
