//! The law of the words. The function here does nothing when it runs: a proof that needs the law
//! calls it.
ghost use Rattle.lab_arguments.specs.Grammar.{check_form, gen_form, run_form};
ghost use Rattle.lab_arguments.specs.Spelling.{ReadsLines};

/// Words are read as the parts of their line say, in whichever of its two ways each option is
/// written; and words that are those of no line are refused.
pub fn lines_are_read()
    ensures of_run { ReadsLines run_form }
    ensures of_check { ReadsLines check_form }
    ensures of_gen { ReadsLines gen_form }
{}
