//! One platform file, read whole.
ghost use Rattle.std.specs.Prelude.{◌≡◌, ◌≤◌, length};
ghost use Rattle.std.specs.FinMap.{get};
ghost use Rattle.std.specs.Option.{ForSome};
ghost use Rattle.lab_io.specs.Frame.{OnlyReads};
ghost use Rattle.repl_read.specs.Platform.{platform};
ghost use Rattle.repl_files.specs.Content.{content_of, text_content};
ghost use Rattle.repl_files.specs.Inner.Course.{AreRead, IsContent, IsOpened};

use crate::fault::{FileCause, LoadFault, fault_at};
use lab_io::{Files, TextFault, read_text};
use repl_read::{Entry, PlatFault, laws, read_platform};
use std::alloc::Global;

/// How a file was opened.
#[derive(Drop)]
pub(crate) enum Opened {
    /// The entries of its text.
    Entries(Vec<Entry>),
    /// The file has more bytes than a file may have.
    TooLarge,
    /// The file is refused, or could not be read.
    Stopped(LoadFault),
}

/// Reads a platform file whole.
pub(crate) fn open<F: Files>(alloc: Global, files: &mut F, name: &str) -> Opened
    ensures opened { ForSome (F.held files.old) (λ held. IsOpened
        (content_of (get held name.now)) name.now result (F.asked files.old) (F.asked files.new)) }
    ensures read { AreRead result }
    ensures files { OnlyReads F.Files (result ≡ Opened.Stopped LoadFault.Unread)
        files.old files.new }
{
    match read_text(alloc, files, name) {
        Ok(text) => entries_of(alloc, name, text.as_str()),
        Err(TextFault::NotText { line }) => {
            Opened::Stopped(fault_at(alloc, name, line, FileCause::Utf8))
        }
        Err(TextFault::TooLarge) => Opened::TooLarge,
        Err(TextFault::Unread) => Opened::Stopped(LoadFault::Unread),
        Err(TextFault::Memory) => Opened::Stopped(LoadFault::Memory),
    }
}

/// What the text of the file of this name is to a loading.
fn entries_of(alloc: Global, name: &str, text: &str) -> Opened
    requires { length text.now ≤ 16777216 }
    ensures content { IsContent (text_content (platform text.now)) name.now result }
    ensures read { AreRead result }
{
    laws::platform_laws();
    match read_platform(alloc, text) {
        Ok(entries) => Opened::Entries(entries),
        Err(PlatFault::At { line, cause, .. }) => {
            Opened::Stopped(fault_at(alloc, name, line, FileCause::Platform(cause)))
        }
        Err(PlatFault::Memory) => Opened::Stopped(LoadFault::Memory),
    }
}
