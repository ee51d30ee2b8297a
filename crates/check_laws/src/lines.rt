//! What a check refuses at a line.
ghost use Rattle.std.specs.Prelude.{◌≡◌, ℕ, List};
ghost use Rattle.lab_io.specs.Held.{Held};
ghost use Rattle.lab_state.specs.Lab.{Lab};
ghost use Rattle.lab_state.specs.Run.{run};
ghost use Rattle.lab_top.specs.Request.{checking};
ghost use Rattle.log_text.specs.declared.line.OpenLine.{OpenLine};
ghost use Rattle.monitor.specs.declared.setting.Setting.{Setting};
ghost use Rattle.monitor.specs.Command.{did};
ghost use Rattle.monitor.specs.State.{State, bodies_of, joined, started};
ghost use Rattle.check_laws.specs.Checked.{IsCheckOf, IsFound};

use board::laws;
/// At a line a check reads the files that the run reads, and answers as the run does. What the run
/// refuses the check refuses, for the same cause and at the same place, unless it is for the time of
/// the laboratory. Where the run goes on the check goes on beside it, also where both load one
/// snapshot; and so they begin.
pub fn checks_refuse_as_runs_do()
    ensures read { (held : Held) (s t : State) → IsCheckOf s t →
        (did run held t).names ≡ (did run held s).names }
    ensures answered { (held : Held) (s t : State) → IsCheckOf s t →
        IsFound (did run held s).answer (did run held t).answer }
    ensures loaded { (s t : State) (lab : Lab) (lines : List OpenLine) → IsCheckOf s t →
        IsCheckOf (joined (bodies_of s) lab lines) (joined (bodies_of t) lab lines) }
    ensures begun { (script text : List ℕ) (setting : Setting) →
        IsCheckOf (started script text setting) (started script text checking) }
{
    laws::stretches_keep_plans();
}
