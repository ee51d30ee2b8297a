//! The law of carriage returns. The function here does nothing when it runs: a proof that needs the
//! law calls it.
ghost use Rattle.std.specs.Prelude.{◌≡◌, ℕ, true, List};
ghost use Rattle.std.specs.List.{list_all};
ghost use Rattle.std.specs.Str.Lines.{lines};
ghost use Rattle.lab_num.specs.Returns.{is_no_return, with_returns};

/// A text without carriage returns has the lines that it has with one before each line feed.
pub fn return_law()
    ensures { (text : List ℕ) →
        list_all is_no_return text ≡ true → lines (with_returns text) ≡ lines text }
{}
