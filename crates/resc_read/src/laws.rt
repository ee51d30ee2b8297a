//! The laws of lines. The functions here do nothing when they run: a proof that needs a law calls
//! the one whose contract it is.
ghost use Rattle.std.specs.Prelude.{◌≡◌, ◌++◌, ◌∷◌, [], ℕ, List, Ok, false, codes};
ghost use Rattle.resc_read.specs.declared.command.Command.TheVariants as commands;
ghost use Rattle.resc_read.specs.Laws.{IsLine};
ghost use Rattle.resc_read.specs.Line.{line_of};
ghost use Rattle.resc_read.specs.Sorts.{has_quote};
ghost use Rattle.resc_read.specs.Words as words;

/// Each line is put together of blanks and its words, and of no other words; and how many blanks
/// stand before, between and after them has no meaning.
pub fn line_laws()
    ensures whole { (line : List ℕ) → IsLine line (words.words line) }
    ensures words { (line : List ℕ) (all : List (List ℕ)) → IsLine line all → words.words line ≡ all }
    ensures blanks { (a b : List ℕ) (all : List (List ℕ)) →
        IsLine a all → IsLine b all → line_of a ≡ line_of b }
{}

/// A device keeps its prefix `sysbus.`, which is taken off where the device is sought.
pub fn prefix_law()
    ensures { (line dev : List ℕ) → has_quote dev ≡ false →
        IsLine line (codes "showAnalyzer" ∷ (codes "sysbus." ++ dev) ∷ []) →
        line_of line ≡ Ok (commands.Show (codes "sysbus." ++ dev)) }
{}
