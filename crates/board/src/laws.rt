//! Laws of boards and of slots one after another. Each is the contract of a function that does
//! nothing.
ghost use Rattle.std.specs.Prelude.{◌≡◌, ℕ, ◌+◌, ◌%◌, ◌<◌, ◌^◌, Bool, true, List, sum, length};
ghost use Rattle.std.specs.Prelude.{All, map};
ghost use Rattle.board_space.specs.declared.state.BoardState.{BoardState};
ghost use Rattle.board.specs.BoardState.{board_state, brought_to};
ghost use Rattle.board.specs.View.{View, quiet, after};
ghost use Rattle.board.specs.Valid.{IsBoard};
ghost use Rattle.board_space.specs.Valid.{IsStateFor};
ghost use Rattle.board.specs.Stretch.{stretch, in_turns};
ghost use Rattle.board.specs.Idle.{IsIdle, IsStillFor, all_halted, passed};
ghost use Rattle.board_space.specs.Lines.{sampled};
ghost use Rattle.board_space.specs.Space.{Space};
ghost use Rattle.board.specs.Numbered.{IsNumbered};
ghost use Rattle.board.specs.Sent.{IsEnteredIn, IsSentBy, IsSentIn, IsToldBy};
ghost use Rattle.dev_core.specs.Device.{kind_of};
ghost use Rattle.sys_bus.specs.Plan.{IsValid};

/// A stretch of slots and the one after it are one stretch.
pub fn stretches_join()
    ensures { (v : View) (from a m n : ℕ) →
        stretch v from a (m + n)
        ≡ after (stretch v from a m) (stretch (stretch v from a m).view from (a + m) n) }
{}

/// However a stretch is cut into turns, it is the same: the board after it, its posts and its
/// entries.
pub fn turns_join()
    ensures { (v : View) (from a : ℕ) (turns : List ℕ) →
        in_turns v from a turns ≡ stretch v from a (sum turns) }
{}

/// A stretch keeps the board's number and speed, makes at most one post and one entry a slot, and
/// numbers them one after another from the counts on.
pub fn stretches_number()
    ensures { (v : View) (from a n : ℕ) →
        v.numbers.posted + n < 2 ^ 64 → v.numbers.entered + n < 2 ^ 64 →
        IsNumbered v.numbers n (stretch v from a n) }
{}

/// What a stretch sends is sent in the microsecond of one of its slots.
pub fn stretches_keep_time()
    ensures { (v : View) (from a n : ℕ) →
        All (IsSentIn from a n v.numbers.speed) (stretch v from a n).posts }
{}

/// So is what it tells of for the log.
pub fn stretches_keep_time_of_entries()
    ensures { (v : View) (from a n : ℕ) →
        All (IsEnteredIn from a n v.numbers.speed) (stretch v from a n).entries }
{}

/// What a stretch sends is sent by devices of the board, as devices of their kinds send it, where the
/// plan is valid and the board has the plan's devices. What it tells of them for the log it tells of
/// shown ones.
pub fn stretches_tell_of_devices()
    ensures sent { (v : View) (from a n : ℕ) →
        IsValid v.space.plan → length v.space.devices ≡ length v.space.plan.kinds →
        All (IsSentBy v) (stretch v from a n).posts }
    ensures told { (v : View) (from a n : ℕ) →
        All (λ entry. IsToldBy v entry.what) (stretch v from a n).entries }
{}

/// A stretch leaves a device shown or not as it was, and of its kind.
pub fn stretches_keep_devices()
    ensures kinds { (v : View) (from a n : ℕ) →
        map (λ fitted. kind_of fitted.state) (stretch v from a n).view.space.devices
        ≡ map (λ fitted. kind_of fitted.state) v.space.devices }
    ensures shown { (v : View) (from a n : ℕ) →
        map (λ fitted. fitted.shown) (stretch v from a n).view.space.devices
        ≡ map (λ fitted. fitted.shown) v.space.devices }
{}

/// A stretch keeps the plan of the board.
pub fn stretches_keep_plans()
    ensures { (v : View) (from a n : ℕ) → (stretch v from a n).view.space.plan ≡ v.space.plan }
{}

/// A board whose processors go on waiting, or are halted, as long as the timer's line is up, or is
/// not, is after n slots in which that is so itself, with mcycle of each processor that is not
/// halted raised by how many of the slots it takes, and the turn moved on.
pub fn waiting_boards_count_cycles()
    ensures { (v : View) (timer : Bool) (from a n : ℕ) → v.next < length v.cores →
        All (λ core. core.mcycle < 2 ^ 64) v.cores →
        IsIdle v timer → IsStillFor v timer from a n → stretch v from a n ≡ quiet (passed v n) }
{}

/// A board whose processors are all halted is after any slots itself, with the turn moved on.
pub fn halted_boards_stay()
    ensures { (v : View) (from a n : ℕ) → v.next < length v.cores → all_halted v.cores ≡ true →
        stretch v from a n ≡ quiet (record v { next = (v.next + n) % length v.cores }) }
{}

/// A second sample of the same lines changes nothing.
pub fn samples_settle()
    ensures { (s : Space) → sampled (sampled s) ≡ sampled s }
{
    plic::laws::second_samples_change_nothing();
}

/// A board that is brought to the state in which it is stays as it is. One that is brought to any
/// other state of its plan is in that state, and is one that there can be.
pub fn states_are_put_back()
    ensures same { (v : View) → IsBoard v → brought_to v (board_state v) ≡ v }
    ensures brought { (v : View) (s : BoardState) → IsStateFor v.space.plan s → IsBoard v →
        (board_state (brought_to v s) ≡ s) × IsBoard (brought_to v s) }
{}
