//! Laws of the transcript. Each is the contract of a function that does nothing when it runs.
ghost use Rattle.std.specs.Prelude.{◌≡◌, ◌≤◌, ℕ, true, false, List, Ok, length};
ghost use Rattle.std.specs.FinMap.{insert};
ghost use Rattle.std.specs.List.{list_all};
ghost use Rattle.lab_io.specs.Held.{Held};
ghost use Rattle.lab_io.specs.Store.{get_of, put_of};
ghost use Rattle.lab_snap.specs.Saved.{IsSpellable, spelling};
ghost use Rattle.lab_state.specs.Run.{run};
ghost use Rattle.lab_state.specs.Turns.{Cut, IsWhole, run_in_turns};
ghost use Rattle.lab_state.specs.Valid.{IsValid};
ghost use Rattle.lab_num.specs.Returns.{is_no_return, with_returns};
ghost use Rattle.monitor.specs.declared.setting.Setting.{Setting};
ghost use Rattle.monitor.specs.Answer.{Done, leaves};
ghost use Rattle.monitor.specs.Runs.{run_for};
ghost use Rattle.monitor.specs.State.{State, LinePlace, bodies_of, joined};
ghost use Rattle.lab_top.specs.Content.{Readable};
ghost use Rattle.lab_top.specs.Request.{Run, request_of};
ghost use Rattle.lab_top.specs.Transcript.{Further, begun, is_occupied, loading, saving, transcript};
ghost use Rattle.lab_top.specs.Transcript.{transcript_by, using};

use lab_snap::snapshots_are_what_they_spell;

/// However the boards take the slots of their grants in turns, the program writes the same bytes,
/// ends in the same way, reads the same files, and makes the same calls on the store, which keeps the same.
pub fn transcripts_agree()
    ensures { (cut : Cut) → IsWhole cut → (words : List (List ℕ)) (held kept : Held) →
        transcript_by (run_in_turns cut) words held kept ≡ transcript words held kept }
{
    lab_state::laws::turns_agree();
}

/// Words that ask for the same run by another number of workers make the program write the same
/// bytes, end in the same way, read the same files, and make the same calls on the store, which keeps the same.
pub fn workers_agree()
    ensures { (words others : List (List ℕ)) (script : List ℕ) (setting : Setting) (workers : ℕ) (held kept : Held) →
        request_of words ≡ Run script setting →
        request_of others ≡ Run script (record setting { workers = workers }) →
        transcript others held kept ≡ transcript words held kept }
{}

/// A script without carriage returns goes on as it does with one before each line feed.
pub fn returns_agree()
    ensures { (held kept : Held) (script text : List ℕ) (setting : Setting) →
        list_all is_no_return text ≡ true →
        begun run held kept script setting (Readable (with_returns text))
        ≡ begun run held kept script setting (Readable text) }
{
    resc_vars::laws::return_law();
}

/// Where each run has length 0, a command that runs the boards prints nothing and leaves all as it
/// was, or is refused.
pub fn checks_run_nothing()
    ensures { (s : State) (length : ℕ) (done : Done) → s.dry ≡ true →
        run_for run s length ≡ Ok done → done ≡ leaves s }
{}

/// A run that is cut by `Save` and `Load` goes on as the unbroken one. What is left of a run after `Save`
/// is what is left of it without the command, with the snapshot kept. `Load`, in any other run in whose
/// laboratory nothing was made, goes on with the laboratory and the open lines that were saved, with no board
/// selected, and with its own script: the lines to come, the variables and the macros.
pub fn cut_runs_go_on()
    ensures saved { (further : Further) (kept : Held) (name : List ℕ) (place : LinePlace) (s : State) (bytes : List ℕ) →
        length bytes ≤ 67108864 → s.dry ≡ false →
        saving further kept name place s bytes ≡ using (put_of name bytes) (further (insert kept name bytes) s) }
    ensures loaded { (further : Further) (kept : Held) (name : List ℕ) (place : LinePlace) (s t : State) →
        IsValid s.lab s.lines → IsSpellable s.lab s.lines → length (spelling s.lab s.lines) ≤ 67108864 →
        is_occupied t.lab ≡ false →
        loading further (insert kept name (spelling s.lab s.lines)) name place t
        ≡ using (get_of name)
        (further (insert kept name (spelling s.lab s.lines)) (joined (bodies_of t) s.lab s.lines)) }
{
    snapshots_are_what_they_spell();
}
