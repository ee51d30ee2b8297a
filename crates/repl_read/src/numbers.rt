//! Names and types.
ghost use Rattle.std.specs.Prelude.{◌≡◌};
ghost use Rattle.repl_read.specs.Words.{is_dotted_name};

use lab_num::is_identifier;

/// Whether the text is one or more names, joined by dots.
pub(crate) fn is_dotted_name(text: &str) -> bool
    ensures { result ≡ is_dotted_name text.now }
{
    text.split('.').all(|part| is_identifier(part))
}
