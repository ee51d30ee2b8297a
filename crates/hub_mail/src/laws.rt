//! What the order of arrival does not decide. The function here does nothing when it runs: a proof
//! that needs the law calls it.
ghost use Rattle.std.specs.Prelude.{◌≡◌, ℕ, List, flat_map};
ghost use Rattle.std.specs.List.Sorted.{IsPermutation};
ghost use Rattle.lab_num.specs.Key.{KeysDiffer};
ghost use Rattle.lab_num.specs.Listing.{listing};
ghost use Rattle.dev_core.specs.declared.post.Post.{Post};
ghost use Rattle.dev_core.specs.Post.{post_key};
ghost use Rattle.hub_mail.specs.Posts.{AreOfBoards, RiseByNumber, list_of, of_board};

use dev_core::Post;
use lab_num::listing_laws;

/// Two lists that have the same posts of each board, each board's in the same order, have the same
/// posts (`members`). Where the posts of each board rise by number, no two posts have one key
/// (`keys`), and then the order of the posts does not matter for their listing (`listing`,
/// `arrival`). So it is that of the boards' lists, one after another (`boards`).
pub fn arrival_laws()
    ensures members { (one other : List Post) →
        ((board : ℕ) → of_board board one ≡ of_board board other) → IsPermutation one other }
    ensures keys { (posts : List Post) →
        ((board : ℕ) → RiseByNumber (of_board board posts)) → KeysDiffer post_key posts }
    ensures listing { (one other : List Post) → IsPermutation one other → KeysDiffer post_key one →
        listing post_key one ≡ listing post_key other }
    ensures arrival { (one other : List Post) →
        ((board : ℕ) → of_board board one ≡ of_board board other) →
        ((board : ℕ) → RiseByNumber (of_board board one)) →
        listing post_key one ≡ listing post_key other }
    ensures boards { (lists : List (List Post)) (posts : List Post) → AreOfBoards lists →
        ((board : ℕ) → of_board board posts ≡ list_of board lists) →
        listing post_key posts ≡ listing post_key (flat_map (λ list. list) lists) }
{
    listing_laws::<Post>();
}
