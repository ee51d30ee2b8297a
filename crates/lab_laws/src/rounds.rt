//! What is handed over in rounds: when, once, and in which order. Each law is the contract of a function that does
//! nothing when it runs.
ghost use Rattle.std.specs.Prelude.{◌≡◌, ℕ, ◌+◌, ◌<◌, ◌≤◌, ◌⊎◌, false, List, [], ◌++◌};
ghost use Rattle.std.specs.Prelude.{map, filter, sum, All};
ghost use Rattle.std.specs.List.Sorted.{IsPermutation, IsStrictlySortedBy};
ghost use Rattle.dev_core.specs.declared.post.Post.{Post};
ghost use Rattle.lab_num.specs.Key.{key_cmp, KeysDiffer};
ghost use Rattle.dev_core.specs.Post.{post_key};
ghost use Rattle.lab_state.specs.Board.{Board};
ghost use Rattle.lab_state.specs.Boundary.{boundary};
ghost use Rattle.lab_state.specs.Handed.{sent_in, handed_in, handed_over, is_of_hub};
ghost use Rattle.lab_state.specs.Handed.{slots_in, after_handing, pause_in};
ghost use Rattle.lab_state.specs.Hub.{Hub};
ghost use Rattle.lab_state.specs.Lab.{Lab as Laboratory};
ghost use Rattle.lab_state.specs.Pending.{due_at, is_of_a_hub};
ghost use Rattle.lab_state.specs.Round.{round};
ghost use Rattle.lab_state.specs.Run.{run, lengths};
ghost use Rattle.lab_state.specs.Undelayed.{AreUndelayed, undelayed_round};

use dev_core::{Device, Post as BoardPost};
use lab_num::{key_laws, listing_laws};
use lab_state::Lab;

/// What a boundary comes to does not depend on the order in which the posts were gathered.
pub fn boundaries_agree()
    ensures { (at : ℕ) (hubs : List Hub) (boards : List Board) (pending posts others : List Post) →
        KeysDiffer post_key posts → IsPermutation posts others →
        boundary at hubs boards pending posts ≡ boundary at hubs boards pending others }
{
    listing_laws::<BoardPost>();
}

/// Where no hub holds anything back and nothing waits, a round hands over at its end all that was sent
/// in it, and nothing waits after it.
pub fn undelayed_rounds_agree<D: Device>(lab: &Lab<D>)
    requires { lab.now.spent ≡ false }
    ensures round { (q : ℕ) → lab.now.lab.now + q ≤ 10000000000 →
        AreUndelayed lab.now.lab.hubs → lab.now.lab.pending ≡ [] →
        round lab.now.lab q ≡ undelayed_round lab.now.lab q }
    ensures none { (q : ℕ) → lab.now.lab.now + q ≤ 10000000000 →
        AreUndelayed lab.now.lab.hubs → lab.now.lab.pending ≡ [] →
        (round lab.now.lab q).lab.pending ≡ [] }
{
    lab.validity_law();
    board::laws::stretches_number();
    board::laws::stretches_keep_time();
    listing_laws::<BoardPost>();
}

/// In rounds of any lengths, however a run is cut into them, what the devices of one hub have sent is
/// handed over in rising order of key.
pub fn hubs_keep_order<D: Device>(lab: &Lab<D>)
    requires { lab.now.spent ≡ false }
    ensures { (qs : List ℕ) → lab.now.lab.now + sum qs ≤ 10000000000 →
        (n : ℕ) → IsStrictlySortedBy key_cmp (map post_key
        (filter (is_of_hub lab.now.lab.hubs n) (handed_over lab.now.lab qs))) }
{
    lab.validity_law();
    board::laws::stretches_number();
    board::laws::stretches_keep_time();
    listing_laws::<BoardPost>();
}

/// In rounds of any lengths no post is handed over twice: the keys of what is handed over differ.
/// What is handed over at the end of a round is due by then. It was sent in that round, or was not due
/// when the round began.
pub fn posts_are_handed_over_once<D: Device>(lab: &Lab<D>)
    requires { lab.now.spent ≡ false }
    ensures once { (qs : List ℕ) → lab.now.lab.now + sum qs ≤ 10000000000 →
        KeysDiffer post_key (handed_over lab.now.lab qs) }
    ensures due { (q : ℕ) →
        All (λ post. due_at lab.now.lab.hubs post ≤ lab.now.lab.now + q)
        (handed_in lab.now.lab q) }
    ensures first { (q : ℕ) → lab.now.lab.now + q ≤ 10000000000 →
        All (λ post. (lab.now.lab.now < due_at lab.now.lab.hubs post)
        ⊎ (lab.now.lab.now ≤ post.key.at.0)) (handed_in lab.now.lab q) }
{
    lab.validity_law();
    key_laws();
    board::laws::stretches_number();
    board::laws::stretches_keep_time();
    listing_laws::<BoardPost>();
}

/// What was pending and what is sent in a round for other devices is handed over at its end or is pending
/// after it: all of it, each post once. The boards are handed that, and nothing else, after they have
/// taken their slots, and the log notes what came of that.
pub fn rounds_lose_nothing()
    ensures all { (lab : Laboratory) (q : ℕ) → IsPermutation
        (lab.pending ++ filter (is_of_a_hub lab.hubs) (sent_in lab q))
        (handed_in lab q ++ (round lab q).lab.pending) }
    ensures boards { (lab : Laboratory) (q : ℕ) →
        (round lab q).lab.boards ≡ (after_handing lab q).boards }
    ensures items { (lab : Laboratory) (q : ℕ) → (round lab q).items
        ≡ slots_in lab q ++ (after_handing lab q).notes ++ pause_in lab q }
{}
