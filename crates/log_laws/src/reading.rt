//! What of files and kept snapshots a run depends on.
ghost use Rattle.std.specs.Prelude.{◌≡◌, ℕ, List};
ghost use Rattle.lab_io.specs.Held.{Held};
ghost use Rattle.lab_state.specs.Run.{run};
ghost use Rattle.lab_top.specs.Content.{Readable};
ghost use Rattle.lab_top.specs.Headline.{names_read};
ghost use Rattle.lab_top.specs.Transcript.{begun, transcript};
ghost use Rattle.log_laws.specs.Agreement.{AgreeOn, IsAlike, names_used};
ghost use Rattle.monitor.specs.declared.setting.Setting.{Setting};

/// Files that hold the same under the names that a run reads, and kept snapshots that are the same
/// under the names that it saves or loads, make the program write the same bytes, end in the same
/// way, read the same names and make the same calls on the store. What is kept at the end may differ
/// under other names.
///
/// A text that is run as a script is read before its lines are: over other files that hold the same
/// under the names that those read, and over the same kept snapshots, it goes on in the same way,
/// whatever its own name holds there.
pub fn only_what_is_read_matters()
    ensures whole { (words : List (List ℕ)) (held other kept stored : Held) →
        AgreeOn (names_read (transcript words held kept).reads) held other →
        AgreeOn (names_used (transcript words held kept).uses) kept stored →
        IsAlike (transcript words held kept) (transcript words other stored) }
    ensures lines { (script text : List ℕ) (setting : Setting) (held other kept : Held) →
        AgreeOn (names_read (begun run held kept script setting (Readable text)).reads) held other →
        begun run other kept script setting (Readable text)
        ≡ begun run held kept script setting (Readable text) }
{}
