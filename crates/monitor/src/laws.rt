//! Laws of runs. The functions here do nothing when they run: a proof that needs a law calls it.
ghost use Rattle.std.specs.Prelude.{◌≡◌, ℕ};
ghost use Rattle.lab_state.specs.Lab.{Lab};
ghost use Rattle.lab_state.specs.Names.{names};
ghost use Rattle.lab_state.specs.Run.{run};

/// A run changes no name that the log prints.
pub fn runs_keep_names()
    ensures { (lab : Lab) (d : ℕ) → names (run lab d).lab ≡ names lab }
{
    board::laws::stretches_keep_plans();
}
