//! How the processors of a board share its slots.
ghost use Rattle.std.specs.Prelude.{◌≡◌, ℕ, ◌+◌, ◌/◌, ◌%◌, ◌<◌, ◌≤◌, length};
ghost use Rattle.board.specs.Idle.{turns_of};
ghost use Rattle.board.specs.Stretch.{stretch};
ghost use Rattle.board.specs.View.{View};

/// The processors of a board take its slots in turn: the turn has moved on by each slot, and of n
/// slots each processor takes n divided by their number, or one more.
pub fn harts_take_turns()
    ensures turn { (v : View) (from a n : ℕ) → v.next < length v.cores →
        (stretch v from a n).view.next ≡ (v.next + n) % length v.cores }
    ensures fair { (harts next n hart : ℕ) → next < harts → hart < harts →
        (n / harts ≤ turns_of harts next n hart) × (turns_of harts next n hart ≤ n / harts + 1) }
{}
