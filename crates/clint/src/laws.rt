//! Laws, each the contract of a function that does nothing.
ghost use Rattle.clint.specs.Laws.{ChangesTwice, FallsAtWraps};

/// As long as no register is stored, the line of the timer interrupt changes at most twice in the
/// time of a laboratory: it goes up once, and goes down once, where `mtime` wraps.
pub fn timer_lines_change_at_most_twice()
    ensures twice { ChangesTwice }
    ensures falls { FallsAtWraps }
{}
