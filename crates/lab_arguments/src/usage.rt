//! The line that refused words are answered with.
ghost use Rattle.std.specs.Prelude.{◌≡◌};
ghost use Rattle.lab_arguments.specs.Usage as usage;

/// How the program is called, as one line with its line feed.
pub fn usage_line() -> &'static str
    ensures { result.now ≡ usage.usage_line }
{
    "usage: lab run SCRIPT [--workers N] [--until TIME] | check SCRIPT | gen SEED BOARDS [--workers N]\n"
}
