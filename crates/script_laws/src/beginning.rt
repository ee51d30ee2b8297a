//! A script and the same script with more lines behind.
ghost use Rattle.std.specs.Prelude.{◌≡◌, ℕ, List, ◌++◌, Some, drop};
ghost use Rattle.std.specs.FinMap.{get};
ghost use Rattle.lab_io.specs.Held.{Held};
ghost use Rattle.lab_state.specs.Run.{run};
ghost use Rattle.lab_top.specs.Headline.{names_read};
ghost use Rattle.lab_top.specs.Request.{Run, request_of};
ghost use Rattle.lab_top.specs.Transcript.{transcript};
ghost use Rattle.log_laws.specs.Agreement.{AgreeOn};
ghost use Rattle.monitor.specs.declared.setting.Setting.{Setting};
ghost use Rattle.resc_vars.specs.Behind.{ClosesMacros, EndsLine};
ghost use Rattle.script_laws.specs.Beginning.{Begins, IsText};

use log_laws::only_what_is_read_matters;
use resc_vars::laws;

/// What the run of a script writes, without the open lines at its end, is the beginning of what the
/// script writes with more lines behind: where the first one is refused, is without a file or ends
/// by `quit`, the runs are one; where it comes to its end, the longer one goes on from there, and if
/// its next command is refused, it has written what the first one writes, and the refusal. The
/// first text ends with a line feed and closes its macros, and what else it reads is the same for
/// both: so it does not read its own file again.
pub fn longer_scripts_begin_alike()
    ensures { (words : List (List ℕ)) (script text more : List ℕ) (setting : Setting) (held other kept : Held) →
        request_of words ≡ Run script setting →
        get held script ≡ Some text → get other script ≡ Some (text ++ more) →
        IsText script text → IsText script (text ++ more) →
        EndsLine text →
        ClosesMacros text →
        AgreeOn (drop 1 (names_read (transcript words held kept).reads)) held other →
        Begins run other script text more (transcript words held kept) (transcript words other kept) }
{
    only_what_is_read_matters();
    laws::lines_behind_come_last();
    laws::lines_leave_the_script();
}
