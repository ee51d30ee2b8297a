//! The laws of floors. The functions here do nothing when they run: a proof that needs a law calls
//! the one whose contract it is.
ghost use Rattle.std.specs.Prelude.{◌≡◌, ℕ, ◌+◌, ◌≤◌, true, List, Some, slice_get};
ghost use Rattle.lab_num.specs.Listing.{IsListing, listing};
ghost use Rattle.dev_core.specs.declared.post.Post.{Post};
ghost use Rattle.dev_core.specs.Post.{post_key};
ghost use Rattle.floor_core.specs.declared.event.Event.{Event};
ghost use Rattle.floor_core.specs.Events.{IsLegal, happened};
ghost use Rattle.floor_core.specs.Floor.{Board, Floor, begun};
ghost use Rattle.floor_core.specs.Job.{Job, left, made, after};
ghost use Rattle.floor_core.specs.Result.{IsOver, IsNumbered, jobs, mailed};
ghost use Rattle.floor_core.specs.Run.{IsRun};
ghost use Rattle.floor_core.specs.Sound.{Sound};

use crate::job;
use dev_core::Post;
use lab_num::{key_laws, listing_laws};

/// For jobs of any type: a floor that begins is sound, and every legal event keeps a sound floor
/// sound.
pub fn floors_stay_sound<J: job::Job>()
    ensures begun { (starts : List (Job J.State)) → Sound J.state_after starts (begun starts) }
    ensures kept { (starts : List (Job J.State)) (f : Floor J.State) (e : Event) →
        Sound J.state_after starts f → IsLegal f e →
        Sound J.state_after starts (happened J.state_after f e) }
{}

/// A turn of some slots and then a turn of some more is one turn of all of them: it leaves the same
/// job, which has made the same posts.
pub fn turns_add_up<J: job::Job>()
    ensures turns { (job : Job J.State) (a b : ℕ) → a + b ≤ left job →
        after J.state_after (after J.state_after job a) b ≡ after J.state_after job (a + b) }
    ensures posts { (job : Job J.State) (a b : ℕ) →
        made (after J.state_after job a) b ≡ made job (a + b) }
{}

/// At every moment of a round no board has used more slots than it began with. Those that it has
/// used and those that are left are all of them.
pub fn no_board_passes_its_grant<J: job::Job>()
    ensures { (starts : List (Job J.State)) (events : List Event) (f : Floor J.State) →
        IsRun J.state_after (begun starts) events f →
        (i : ℕ) (start : Job J.State) (b : Board J.State) →
        slice_get starts i ≡ Some start → slice_get f.boards i ≡ Some b →
        (b.used ≤ left start) × (b.used + left b.job ≡ left start) }
{}

/// After any legal events that end the round, each job is finished and all its posts are in the
/// mail. So two orders of events leave equal jobs and, where the posts are numbered by board, mails
/// of one listing.
pub fn orders_agree<J: job::Job>()
    ensures over { (starts : List (Job J.State)) (events : List Event) (f : Floor J.State) →
        IsRun J.state_after (begun starts) events f → f.is_ended ≡ true →
        IsOver J.state_after starts f }
    ensures jobs { (starts : List (Job J.State)) (one other : List Event) (f g : Floor J.State) →
        IsRun J.state_after (begun starts) one f → f.is_ended ≡ true →
        IsRun J.state_after (begun starts) other g → g.is_ended ≡ true → jobs f ≡ jobs g }
    ensures mail { (starts : List (Job J.State)) (one other : List Event) (f g : Floor J.State) →
        IsRun J.state_after (begun starts) one f → f.is_ended ≡ true →
        IsRun J.state_after (begun starts) other g → g.is_ended ≡ true → IsNumbered starts →
        (listing post_key (mailed f) ≡ listing post_key (mailed g)) ×
        IsListing post_key (mailed f) (listing post_key (mailed g)) }
{
    key_laws();
    listing_laws::<Post>();
}
