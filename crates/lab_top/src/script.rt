//! The file of a script, read whole.
ghost use Rattle.std.specs.Prelude.{◌≡◌};
ghost use Rattle.std.specs.FinMap.{get};
ghost use Rattle.std.specs.Option.{ForSome};
ghost use Rattle.lab_io.specs.Frame.{OnlyReads};
ghost use Rattle.lab_top.specs.Content.{content_of};
ghost use Rattle.lab_top.specs.Inner.Opened.{IsOpened, IsRefused, IsShort};

use lab_io::{Files, TextFault, read_text};
use lab_num::Text;
use monitor::{Cause, ScriptFault};
use resc_vars::ScriptCause;
use std::alloc::Global;

/// How the file of a script was opened.
#[derive(Drop)]
pub(crate) enum Opened {
    /// Its text.
    Text(String),
    /// It is too large, or no text.
    Refused(ScriptFault),
    /// The read failed, and the files counted it.
    Unread,
    /// Memory ran out.
    Memory,
}

/// Reads a script whole. It is refused as a whole, at line 0, where it has more than 16 MiB, and at
/// its first byte that is none of a text.
pub(crate) fn open<F: Files>(alloc: Global, files: &mut F, name: &str) -> Opened
    ensures opened { ForSome (F.held files.old) (λ held. IsOpened
        (content_of name.now (get held name.now)) name.now
        result (F.asked files.old) (F.asked files.new)) }
    ensures short { IsShort result }
    ensures files { OnlyReads F.Files (result ≡ Opened.Unread) files.old files.new }
{
    match read_text(alloc, files, name) {
        Ok(text) => Opened::Text(text),
        Err(TextFault::TooLarge) => refused(alloc, name, 0, ScriptCause::Size),
        Err(TextFault::NotText { line }) => refused(alloc, name, line, ScriptCause::Utf8),
        Err(TextFault::Unread) => Opened::Unread,
        Err(TextFault::Memory) => Opened::Memory,
    }
}

/// A file is refused at a line of it.
fn refused(alloc: Global, name: &str, line: u32, cause: ScriptCause) -> Opened
    ensures { IsRefused (record { file = name.now; number = line }) cause result }
{
    match Text::of(alloc, name) {
        Ok(file) => Opened::Refused(ScriptFault {
            file,
            line,
            cause: Cause::Script(cause),
        }),
        Err(_) => Opened::Memory,
    }
}
