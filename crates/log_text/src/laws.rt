//! Laws of the text of the log. Each is the contract of a function that does nothing.
ghost use Rattle.std.specs.Prelude.{◌≡◌, ◌++◌, All, Bool, IsTrue, List};
ghost use Rattle.lab_num.specs.declared.key.Member.{Member};
ghost use Rattle.lab_num.specs.declared.number.Micros.{Micros};
ghost use Rattle.log_merge.specs.declared.item.LogItem.{LogItem};
ghost use Rattle.log_merge.specs.declared.names.Names.{Names};
ghost use Rattle.log_text.specs.declared.line.OpenLine.{OpenLine};
ghost use Rattle.log_text.specs.Log.{open_lines, rest, text, IsOnBytes};
ghost use Rattle.log_text.specs.Printable.{AreLines, are_printable_names};

/// However the items of a log are cut into parts, the parts print what the items print at once, and
/// leave the same lines open.
pub fn prints_join()
    ensures text { (names : Names) (lines : List OpenLine) (items more : List LogItem) →
        text names lines (items ++ more)
        ≡ text names lines items ++ text names (open_lines lines items) more }
    ensures open { (lines : List OpenLine) (items more : List LogItem) →
        open_lines lines (items ++ more) ≡ open_lines (open_lines lines items) more }
{}

/// A test of a member and a time: where each open line passes it, and each byte of the items, so does
/// each line that the items leave open.
pub fn open_lines_come_of_bytes()
    ensures { (p : Member → Micros → Bool) (lines : List OpenLine) (items : List LogItem) →
        All (λ line. IsTrue (p line.member line.at)) lines → All (IsOnBytes p) items →
        All (λ line. IsTrue (p line.member line.at)) (open_lines lines items) }
{}

/// Where the names have bytes from 0x20 to 0x7E alone, so has each line of the log, and a line feed
/// ends it.
pub fn lines_are_whole()
    ensures text { (names : Names) (lines : List OpenLine) (items : List LogItem) →
        IsTrue (are_printable_names names) → AreLines (text names lines items) }
    ensures rest { (names : Names) (lines : List OpenLine) →
        IsTrue (are_printable_names names) → AreLines (rest names lines) }
{}
