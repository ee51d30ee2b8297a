//! The laws of platform text. The functions here do nothing when they run: a proof that needs a
//! law calls the one whose contract it is.
ghost use Rattle.std.specs.Prelude.{◌==◌, ◌+◌, ◌++◌, ◌∷◌, false, length, codes, IfOk, ◌≡◌, ℕ, true, List};
ghost use Rattle.std.specs.List.{list_all};
ghost use Rattle.std.specs.Str.{byte};
ghost use Rattle.repl_read.specs.declared.comments.Inside.TheVariants.{Nothing};
ghost use Rattle.repl_read.specs.Entries.{is_entry};
ghost use Rattle.repl_read.specs.Comments.{quote, closes, blanked};
ghost use Rattle.lab_num.specs.Returns.{is_no_return, with_returns};
ghost use Rattle.repl_read.specs.Laws.{stays_on_line, stays_in_string, blanks, IsFault};
ghost use Rattle.repl_read.specs.Platform.{platform};

use lab_num::return_law;

/// A text without carriage returns reads as it does with one before each line feed; blanks in place
/// of its comments change nothing; its entries have names of their form, wires with pins, and numbers
/// that do not fall; and its fault is one of the form or a feature that is left out, at a line from 1
/// on.
pub fn platform_laws()
    ensures returns { (text : List ℕ) →
        list_all is_no_return text ≡ true → platform (with_returns text) ≡ platform text }
    ensures comments { (text : List ℕ) → platform (blanked Nothing text) ≡ platform text }
    ensures entries { (text : List ℕ) →
        IfOk (platform text) (λ entries. list_all is_entry entries ≡ true) }
    ensures faults { (text : List ℕ) → IsFault (platform text) }
{
    return_law();
}

/// Outside strings and comments a comment of one line is blanks, up to its first `*/` or to the
/// line's end; a string of one line stays as it is, whatever stands in it; and so does any other
/// sign.
pub fn comment_laws()
    ensures block { (words rest : List ℕ) →
        list_all stays_on_line words ≡ true → closes words ≡ false →
        blanked Nothing (codes "/*" ++ (words ++ (codes "*/" ++ rest)))
        ≡ blanks (length words + 4) ++ blanked Nothing rest }
    ensures line { (words rest : List ℕ) →
        list_all stays_on_line words ≡ true →
        blanked Nothing (codes "//" ++ (words ++ byte "\n" ∷ rest))
        ≡ blanks (length words + 2) ++ byte "\n" ∷ blanked Nothing rest }
    ensures string { (words rest : List ℕ) →
        list_all stays_in_string words ≡ true →
        blanked Nothing (quote ∷ (words ++ quote ∷ rest))
        ≡ quote ∷ (words ++ quote ∷ blanked Nothing rest) }
    ensures other { (b : ℕ) (rest : List ℕ) →
        (b == quote) ≡ false → (b == byte "/") ≡ false →
        blanked Nothing (b ∷ rest) ≡ b ∷ blanked Nothing rest }
{}
