//! What the bench is to the floor of `floor_core`. The function here does nothing when it runs: it
//! is there for its contract.
ghost use Rattle.std.specs.Prelude.{◌≡◌, ◌↔◌, ℕ, ◌+◌, ◌/◌, ◌%◌, ◌<◌, List, [], length, map, All, Some, None};
ghost use mathlib.Core.Option.{some};
ghost use lib.ListN.{get_elem?};
ghost use Rattle.floor_core.specs.declared.event.Event.TheVariants.{Claim, Post, Report, Close};
ghost use Rattle.floor_core.specs.Events.{IsLegal, happened};
ghost use Rattle.floor_core.specs.Floor.{Board, Floor, begun};
ghost use Rattle.floor_run.specs.declared.view.View.{View};
ghost use Rattle.floor_run.specs.Rule.{Rule, Table, home_word};
ghost use Rattle.floor_run.specs.Shown.{Shows, word, turn_slots, opened};
ghost use Rattle.floor_run.specs.Shown.{after_won, after_missed, after_report, after_split, after_join};
ghost use Rattle.floor_run.specs.Turns.{slots_left, AfterTurns, IsTurned};

use floor_core::{Job, laws};

/// Where the rule of the bench holds, its words, cells and views show a floor, which is sound. The
/// floor of a bench that is opened is the one that a round begins with. Each step of the bench lets
/// one legal event happen on the floor that it shows, or none; and the posts that a board sends
/// while it is out change nothing on the bench. The floor may be closed exactly where each word is
/// that of a board that is paid up.
pub fn bench_shows_a_floor<J: Job>()
    ensures shown { (starts : List J) (s : Table J) →
        Rule (slots_left J.meaning) (AfterTurns J.meaning J.sent J.state_after) starts s →
        (f : Floor J.State) × Shows J.meaning J.sent J.state_after starts s f }
    ensures opened { (starts : List J) → All (λ job. (J.meaning job).unsent ≡ []) starts →
        Shows J.meaning J.sent J.state_after starts (opened J.meaning starts) (begun (map J.meaning starts)) }
    ensures won { (starts : List J) (s : Table J) (f : Floor J.State)
        (seat i : ℕ) (v : View J) (start job : J) →
        Rule (slots_left J.meaning) (AfterTurns J.meaning J.sent J.state_after) starts s →
        Shows J.meaning J.sent J.state_after starts s f →
        get_elem? starts i ≡ some start → get_elem? s.views seat ≡ some v → v.held ≡ None →
        word s i % 2 ≡ 0 → get_elem? s.homes i ≡ some (some (Some job)) →
        IsLegal f (Claim seat (record { 0 = i }) (turn_slots J.meaning job)) ×
        Shows J.meaning J.sent J.state_after starts (after_won s seat v i job)
        (happened J.state_after f (Claim seat (record { 0 = i }) (turn_slots J.meaning job))) }
    ensures missed { (starts : List J) (s : Table J) (f : Floor J.State)
        (seat i : ℕ) (v : View J) (start : J) →
        Rule (slots_left J.meaning) (AfterTurns J.meaning J.sent J.state_after) starts s →
        Shows J.meaning J.sent J.state_after starts s f →
        get_elem? starts i ≡ some start → get_elem? s.views seat ≡ some v → v.held ≡ None →
        word s i % 2 ≡ 1 → Shows J.meaning J.sent J.state_after starts (after_missed s seat v i) f }
    ensures posted { (starts : List J) (s : Table J) (f : Floor J.State) (seat i : ℕ) →
        Shows J.meaning J.sent J.state_after starts s f → IsLegal f (Post seat (record { 0 = i })) →
        Shows J.meaning J.sent J.state_after starts s (happened J.state_after f (Post seat (record { 0 = i }))) }
    ensures reported { (starts : List J) (s : Table J) (f : Floor J.State)
        (seat : ℕ) (v : View J) (start claimed job : J) (b : Board J.State) →
        Rule (slots_left J.meaning) (AfterTurns J.meaning J.sent J.state_after) starts s →
        Shows J.meaning J.sent J.state_after starts s f →
        get_elem? starts v.board ≡ some start → get_elem? s.views seat ≡ some v → v.held ≡ Some claimed →
        IsTurned J.meaning J.sent J.state_after claimed job →
        get_elem? f.boards v.board ≡ some b → b.job.unsent ≡ [] →
        IsLegal f (Report seat (record { 0 = v.board })) ×
        Shows J.meaning J.sent J.state_after starts
        (after_report s seat v v.board (home_word (slots_left J.meaning) (v.found / 4 + 1) job) job)
        (happened J.state_after f (Report seat (record { 0 = v.board }))) }
    ensures split { (starts : List J) (s : Table J) (f : Floor J.State) (v : View J) →
        Shows J.meaning J.sent J.state_after starts s f →
        Shows J.meaning J.sent J.state_after starts (after_split s v) f }
    ensures joined { (starts : List J) (s : Table J) (f : Floor J.State) (other : ℕ) (w : View J) →
        Shows J.meaning J.sent J.state_after starts s f →
        get_elem? s.views other ≡ some w → w.held ≡ None →
        Shows J.meaning J.sent J.state_after starts (after_join s other) f }
    ensures closed { (starts : List J) (s : Table J) (f : Floor J.State) →
        Rule (slots_left J.meaning) (AfterTurns J.meaning J.sent J.state_after) starts s →
        Shows J.meaning J.sent J.state_after starts s f →
        IsLegal f Close ↔ ((i : ℕ) → i < length starts → word s i % 4 ≡ 3) }
{
    laws::turns_add_up::<J>();
    laws::floors_stay_sound::<J>();
}
