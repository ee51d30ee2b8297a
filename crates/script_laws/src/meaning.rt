//! Lines of a script in other files and macros.
ghost use Rattle.std.specs.Prelude.{◌≡◌, ◌≤◌, ℕ, List, [], ◌∷◌, Ok};
ghost use Rattle.std.specs.FinMap.{get};
ghost use Rattle.lab_io.specs.Held.{Held};
ghost use Rattle.lab_io.specs.Whole.{Readable, file_text};
ghost use Rattle.lab_state.specs.Run.{run};
ghost use Rattle.lab_top.specs.Transcript.{after, commands_of};
ghost use Rattle.monitor.specs.State.{State};
ghost use Rattle.resc_read.specs.declared.command.Command.TheVariants.{Include, RunMacro};
ghost use Rattle.resc_read.specs.Line.{line_of};
ghost use Rattle.resc_vars.specs.Bodies.{enter, run_of, source_of};
ghost use Rattle.resc_vars.specs.Coming.{MeansSame};
ghost use Rattle.resc_vars.specs.Script as script;
ghost use Rattle.script_laws.specs.Places.{AreOneWithinLimits};

use resc_vars::laws;
/// Places do not matter. Where the same lines are to come, in whatever files and macros they stand,
/// with the same variables and macros and in the same laboratory, a run writes, reads and keeps the
/// same, but for file and line of a refusal; unless one of the two is refused because too much is
/// open (S11) or too many commands were taken (S12): for those the places of lines do count.
pub fn places_do_not_matter()
    ensures { (held kept : Held) (s : State) (other : script.State) →
        s.flow.kept.taken ≤ 100000 → other.kept.taken ≤ 100000 →
        MeansSame s.flow other →
        AreOneWithinLimits (commands_of run held kept s) (commands_of run held kept (record s { flow = other })) }
{
    laws::places_change_no_line();
    laws::lines_leave_the_script();
}

/// So the lines of a file stand for the line that includes it, and those of a macro for the line that
/// runs it: a run that takes this line goes on as one in which they come in its place, but that it
/// reads the file.
pub fn lines_stand_for_their_body()
    ensures file { (held kept : Held) (s : State) (flow opened other : script.State)
        (file line path text : List ℕ) (n : ℕ) →
        script.next_of s.flow ≡ script.Gives file n line flow → line_of line ≡ Ok (Include path) →
        file_text (get held path) ≡ Readable text → enter flow (source_of path text) ≡ Ok opened →
        other.kept.taken ≤ 100000 → MeansSame opened other →
        AreOneWithinLimits (commands_of run held kept s)
        (after (path ∷ []) [] (commands_of run held kept (record s { flow = other }))) }
    ensures macro_ { (held kept : Held) (s : State) (flow opened other : script.State)
        (file line name : List ℕ) (n : ℕ) →
        script.next_of s.flow ≡ script.Gives file n line flow → line_of line ≡ Ok (RunMacro name) →
        run_of flow name ≡ Ok opened →
        other.kept.taken ≤ 100000 → MeansSame opened other →
        AreOneWithinLimits (commands_of run held kept s)
        (after [] [] (commands_of run held kept (record s { flow = other }))) }
{
    laws::places_change_no_line();
    laws::lines_leave_the_script();
}
