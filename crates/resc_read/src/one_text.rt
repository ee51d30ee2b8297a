//! The commands of one word, of which the text is kept.
ghost use Rattle.std.specs.Prelude.{◌≡◌, map};
ghost use Rattle.resc_read.specs.Arguments as arguments;
ghost use Rattle.resc_read.specs.Line.{IsReadAs};
ghost use Rattle.resc_read.specs.Inner.OneText.{command_of, sort_of};

use crate::arguments::{entry, name, one_word, path, variable};
use crate::command::{Command, LineCause, LineFault};
use lab_num::Text;
use std::alloc::Global;

/// A command of one word, of which the text is kept.
#[derive(Clone, Copy)]
pub(crate) enum OneText {
    Select,
    LoadPlatform,
    LoadElf,
    LoadHex,
    Show,
    Include,
    RunMacro,
    Save,
    Load,
}

/// The text of a command's word, if it is of the sort that the command reads.
fn text_of(command: OneText, word: &str) -> Result<&str, LineCause>
    ensures { arguments.map_ok (λ text. text.now) result ≡ sort_of command word.now }
{
    match command {
        OneText::Select => name(word),
        OneText::LoadPlatform => path(word),
        OneText::LoadElf => path(word),
        OneText::LoadHex => path(word),
        OneText::Show => entry(word),
        OneText::Include => path(word),
        OneText::RunMacro => variable(word),
        OneText::Save => path(word),
        OneText::Load => path(word),
    }
}

/// The command with this text.
fn command_with(command: OneText, text: Text) -> Command
    ensures { result ≡ command_of command text }
{
    match command {
        OneText::Select => Command::Select { name: text },
        OneText::LoadPlatform => Command::LoadPlatform { path: text },
        OneText::LoadElf => Command::LoadElf { path: text },
        OneText::LoadHex => Command::LoadHex { path: text },
        OneText::Show => Command::Show { dev: text },
        OneText::Include => Command::Include { path: text },
        OneText::RunMacro => Command::RunMacro { name: text },
        OneText::Save => Command::Save { path: text },
        OneText::Load => Command::Load { path: text },
    }
}

/// A command of one word, of which the text is kept.
pub(crate) fn one_text(
    alloc: Global,
    command: OneText,
    words: &[&str],
) -> Result<Command, LineFault>
    ensures { IsReadAs
        (arguments.one (sort_of command) (command_of command) (map (λ w. w.now) words.now)) result }
{
    let text = text_of(command, one_word(words)?)?;
    Ok(command_with(command, Text::of(alloc, text)?))
}
