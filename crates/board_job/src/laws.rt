//! What a turn of a board's job is to the board. The function here does nothing when it runs: a
//! proof that needs the law calls it.
ghost use Rattle.std.specs.Prelude.{◌≡◌, ◌+◌, ◌<◌, ◌≤◌, ◌^◌, ℕ};
ghost use Rattle.board.specs.View.{State};
ghost use Rattle.floor_core.specs.Job.{after};
ghost use Rattle.hub_mail.specs.Pass.{Pass};
ghost use Rattle.board_job.specs.Slots.{job_of, state_after, stepped, spent};
ghost use Rattle.time_handle.specs.Grant.{Grant, left};

/// The job of a board after n slots is that of the board after its stretch of n slots, which its
/// grant pays. So the turns of a whole grant, however they are cut, are the board's stretch.
pub fn turns_are_stretches()
    ensures { (b : State) (g : Grant) (pass : Pass) (n : ℕ) → n ≤ left g →
        b.view.numbers.posted + n < 2 ^ 64 → b.view.numbers.entered + n < 2 ^ 64 →
        after state_after (job_of b g pass) n ≡ job_of (stepped b g n) (spent g n) pass }
{
    board::laws::stretches_join();
    board::laws::stretches_number();
}
