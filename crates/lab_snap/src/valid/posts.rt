//! The posts that wait in a laboratory.
ghost use Rattle.std.specs.Prelude.{◌≡◌, ◌+◌, ◌<◌, ◌↔◌, IsTrue};
ghost use Rattle.lab_snap.specs.Inner.Parts.{AreWaiting, HasNumber, HasPayload, IsWaitingAt, delay_by};
ghost use Rattle.lab_snap.specs.Rising as rising;

use super::boards::{kind_in, machine_at};
use super::hubs::Delays;
use crate::lab::{SavedBoard, SavedLab};
use dev_core::Post;
use lab_num::{Key, Member, Micros};

/// How long what a device sends is held back. A device in no hub sends to nobody.
fn delay_of(delays: &Delays, from: Member) -> u32
    ensures { result ≡ delay_by delays.now.entries from }
{
    delays.get(&from).copied().unwrap_or(0)
}

/// Whether what was sent at `at` was sent before now and is due after now.
fn is_on_its_way(now: Micros, at: Micros, delay: u32) -> bool
    ensures { IsTrue result ↔ ((at.0 < now.0) × (now.0 < at.0 + delay)) }
{
    at.0 < now.0 && now.0 - at.0 < u64::from(delay)
}

/// Whether the board of the post's key, if it has a plan, has given the key's number.
fn has_number(boards: &[SavedBoard], post: &Post) -> bool
    ensures { IsTrue result ↔ HasNumber boards.now post.now }
{
    match machine_at(boards, post.key.board) {
        Some(machine) => post.key.number.0 < machine.state().posted,
        None => true,
    }
}

/// Whether the device of the post, if it is there, sends such payloads.
fn has_payload(boards: &[SavedBoard], post: &Post) -> bool
    ensures { IsTrue result ↔ HasPayload boards.now post.now }
{
    match kind_in(boards, post.from) {
        Some(kind) => kind.sends(post.payload),
        None => true,
    }
}

/// Whether the post can wait in the laboratory.
fn is_waiting(lab: &SavedLab, delays: &Delays, post: &Post) -> bool
    ensures { IsTrue result ↔ IsWaitingAt lab.now (delay_by delays.now.entries post.now.from) post.now }
{
    let boards = lab.boards.items();
    is_on_its_way(lab.time, post.key.at, delay_of(delays, post.from))
        && post.from.board == post.key.board
        && has_number(boards, post)
        && has_payload(boards, post)
}

/// Whether a key comes before another.
fn is_before(a: Key, b: Key) -> bool
    ensures { result ≡ rising.is_before a b }
{
    a < b
}

/// Whether the key of each post is before those of all posts after it.
fn do_rise(posts: &[Post]) -> bool
    ensures { result ≡ rising.rise posts.now }
{
    for i in 1..posts.len() {
        if !is_before(posts[i - 1].key, posts[i].key) {
            return false;
        }
    }
    true
}

/// Whether the posts rise by key and can wait in the laboratory, of which these are the hubs' delays.
pub fn are_waiting(lab: &SavedLab, delays: &Delays) -> bool
    ensures { IsTrue result ↔ AreWaiting lab.now (delay_by delays.now.entries) }
{
    let posts = lab.pending.items();
    do_rise(posts) && posts.iter().all(|post| is_waiting(lab, delays, post))
}
