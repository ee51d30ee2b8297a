//! Laws of rounds and runs. Each is the contract of a function that does nothing when it runs.
ghost use Rattle.std.specs.Prelude.{◌≡◌, ℕ, ◌+◌, ◌%◌, ◌<◌, ◌≤◌, false, List};
ghost use Rattle.std.specs.Prelude.{All, None};
ghost use Rattle.dev_core.specs.declared.post.Post.{Post};
ghost use Rattle.lab_state.specs.Lab.{Lab as Laboratory};
ghost use Rattle.lab_state.specs.Run.{run, followed_by};
ghost use Rattle.lab_state.specs.Turns.{Cut, IsWhole, run_in_turns};
ghost use Rattle.lab_state.specs.Valid.{IsOpen};
ghost use Rattle.log_text.specs.declared.line.OpenLine.{OpenLine};
ghost use Rattle.log_text.specs.Log.{open_lines};

use crate::lab::Lab;
use dev_core::Device;

/// A run of a whole number of quanta that does not pause and the run after it are one run.
pub fn runs_join()
    ensures { (lab : Laboratory) (d e : ℕ) → 0 < lab.quantum → d % lab.quantum ≡ 0 →
        (run lab d).paused ≡ None →
        run lab (d + e) ≡ followed_by (run lab d) (run (run lab d).lab e) }
{}

/// However the boards take the slots of their grants in turns, a run is the same: the laboratory
/// after it, and the items of the log.
pub fn turns_agree()
    ensures { (cut : Cut) → IsWhole cut → (lab : Laboratory) (d : ℕ) → run_in_turns cut lab d ≡ run lab d }
{
    board::laws::turns_join();
}

/// Lines of shown UARTs that are open before a run, and those that its log leaves open, are open in the
/// laboratory after it.
pub fn runs_keep_lines_open<D: Device>(lab: &Lab<D>)
    requires { lab.now.spent ≡ false }
    ensures { (d : ℕ) (lines : List OpenLine) → lab.now.lab.now + d ≤ 10000000000 →
        All (IsOpen lab.now.lab) lines →
        All (IsOpen (run lab.now.lab d).lab) (open_lines lines (run lab.now.lab d).items) }
{
    let _spent = lab.spent;
    board::laws::stretches_number();
    board::laws::stretches_keep_time_of_entries();
    board::laws::stretches_tell_of_devices();
    board::laws::stretches_keep_devices();
    log_text::laws::open_lines_come_of_bytes();
}
