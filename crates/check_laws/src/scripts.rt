//! What a check refuses of a script.
ghost use Rattle.std.specs.Prelude.{◌≡◌, ℕ, List};
ghost use Rattle.lab_io.specs.Held.{Held};
ghost use Rattle.lab_state.specs.Run.{run};
ghost use Rattle.lab_top.specs.Headline.{calls};
ghost use Rattle.lab_top.specs.Request.{Run, checking, request_of};
ghost use Rattle.lab_top.specs.Transcript.{Script, commands_of, transcript};
ghost use Rattle.monitor.specs.declared.fault.ScriptFault.{ScriptFault};
ghost use Rattle.monitor.specs.declared.setting.Setting.{Setting};
ghost use Rattle.monitor.specs.State.{State};
ghost use Rattle.check_laws.specs.Checked.{IsCheckOf, IsToBeFound};
ghost use Rattle.check_laws.specs.Coming.{GetsOld, SavesFit, ScriptFits};

use board::laws;
/// What a run of a script is refused for its check is refused for, at the same place: all but the
/// time of the laboratory and a laboratory that is not empty. For that the snapshots that the run saves
/// and those that the check comes to save have to be small enough, and what the run loads has to be kept
/// where the check is made: a snapshot that the script itself saves is not.
pub fn checks_find_what_runs_refuse()
    ensures commands { (held kept stored : Held) (s t : State) (fault : ScriptFault) →
        IsCheckOf s t → IsToBeFound fault → SavesFit held kept s → SavesFit held stored t →
        GetsOld stored kept (calls (commands_of run held kept s).uses) →
        (commands_of run held kept s).outcome ≡ Script fault →
        (commands_of run held stored t).outcome ≡ Script fault }
    ensures scripts { (words others : List (List ℕ)) (script : List ℕ) (setting : Setting)
        (held kept stored : Held) (fault : ScriptFault) →
        request_of words ≡ Run script setting → request_of others ≡ Run script checking →
        IsToBeFound fault → ScriptFits held kept script setting → ScriptFits held stored script checking →
        GetsOld stored kept (calls (transcript words held kept).uses) →
        (transcript words held kept).outcome ≡ Script fault →
        (transcript others held stored).outcome ≡ Script fault }
{
    laws::stretches_keep_plans();
}
