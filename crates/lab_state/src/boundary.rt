//! The boundary between two rounds: what the boards have sent is handed over as far as it is due.
ghost use Rattle.std.specs.Prelude.{◌≡◌, ◌+◌, ◌++◌, ◌∷◌, [], true, nat_le, All, filter, fold, find, OnOk, IfOk};
ghost use Rattle.std.specs.Option.{option_map, option_to_list};
ghost use Rattle.lab_num.specs.Route as routes;
ghost use Rattle.lab_state.specs.Boundary.{Handed, note_item, to_member, to_route, to_routes, due, not_due};
ghost use Rattle.lab_state.specs.Pending as pending_spec;
ghost use Rattle.lab_state.specs.Pending.{is_finish, is_of_a_hub};
ghost use Rattle.lab_state.specs.Hub.{members_of};
ghost use Rattle.lab_state.specs.Inner.Standing.{outlines, IsDevice, AreDevices};
ghost use Rattle.lab_state.specs.Round as round_spec;

use crate::hub_list::HubList;
use crate::named_board::NamedBoard;
use dev_core::{Device, Finish, Payload, Post};
use lab_num::{Member, Micros, NoMemory};
use log_merge::{LogItem, Note};
use std::alloc::Global;
use std::{mem, slice};

/// How a test ended, which a finisher's post tells.
fn finish_of(payload: &Payload) -> Option<Finish>
    ensures { result ≡ pending_spec.finish_of payload.now }
{
    match payload {
        Payload::Finish(finish) => Some(*finish),
        _ => None,
    }
}

fn is_finish(post: &Post) -> bool
    ensures { result ≡ is_finish post.now }
{
    finish_of(&post.payload).is_some()
}

/// Puts a note of a device at the end of the items of the log, if there is one.
fn push_note(
    items: &mut Vec<LogItem>,
    at: Micros,
    member: Member,
    note: Option<Note>,
) -> Result<(), NoMemory>
    ensures { OnOk result (items.new.items
        ≡ items.old.items ++ option_to_list (option_map (note_item at.0 member) note)) }
{
    if let Some(note) = note {
        let item = LogItem::Note { at, member, note };
        items.extend_from_slice(slice::from_ref(&item))?;
    }
    Ok(())
}

/// Puts an item at the end of the items, if there is one.
fn push(items: &mut Vec<LogItem>, item: &Option<LogItem>) -> Result<(), NoMemory>
    ensures { OnOk result (items.new.items ≡ items.old.items ++ option_to_list item.now) }
{
    if let Some(item) = item {
        items.extend_from_slice(slice::from_ref(item))?;
    }
    Ok(())
}

/// Hands a payload to a device that is not the one that sent it, and notes what the log says of it.
fn hand_to_other<D: Device>(
    boards: &mut [NamedBoard<D>],
    member: Member,
    from: Member,
    payload: &Payload,
    at: Micros,
    notes: &mut Vec<LogItem>,
) -> Result<(), NoMemory>
    requires { IsDevice (outlines boards.old) member }
    ensures { OnOk result (◌≡◌ {A = Handed}
        (record { boards = boards.new; notes = notes.new.items })
        (fold (to_member at.0 payload.now)
        (record { boards = boards.old; notes = notes.old.items })
        (routes.others (member ∷ []) from))) }
{
    if member == from {
        return Ok(());
    }
    let note = boards[member.board.0 as usize].deliver(member.dev, payload);
    push_note(notes, at, member, note)?;
    Ok(())
}

/// Hands a payload to each of these devices but the one that sent it, and notes what the log says of it.
fn hand_over<D: Device>(
    boards: &mut [NamedBoard<D>],
    members: &[Member],
    from: Member,
    payload: &Payload,
    at: Micros,
    notes: &mut Vec<LogItem>,
) -> Result<(), NoMemory>
    requires { All (IsDevice (outlines boards.old)) members.now }
    ensures { OnOk result (◌≡◌ {A = Handed}
        (record { boards = boards.new; notes = notes.new.items })
        (fold (to_member at.0 payload.now)
        (record { boards = boards.old; notes = notes.old.items })
        (routes.others members.now from))) }
{
    for member in members {
        hand_to_other(boards, *member, from, payload, at, notes)?;
    }
    Ok(())
}

/// Whether what was sent at a time is due by now, after a delay in microseconds.
fn is_due(sent: Micros, delay: u64, at: Micros) -> bool
    ensures { result ≡ nat_le (sent.0 + delay) at.0 }
{
    sent.0 <= at.0 && delay <= at.0 - sent.0
}

/// Hands a post to the other members of its device's hub if it is due by now, and keeps it if not. One
/// that is for no other device goes to nobody.
fn hand_or_keep<D: Device>(
    boards: &mut [NamedBoard<D>],
    hubs: &HubList,
    post: &Post,
    at: Micros,
    kept: &mut Vec<Post>,
    notes: &mut Vec<LogItem>,
) -> Result<(), NoMemory>
    requires { AreDevices (outlines boards.old) hubs.now }
    ensures handed { OnOk result (◌≡◌ {A = Handed}
        (record { boards = boards.new; notes = notes.new.items })
        (fold (to_route at.0 (members_of hubs.now))
        (record { boards = boards.old; notes = notes.old.items })
        (due at.0 hubs.now (filter (is_of_a_hub hubs.now) (post.now ∷ []))))) }
    ensures kept { OnOk result (kept.new.items ≡ kept.old.items
        ++ not_due at.0 hubs.now (filter (is_of_a_hub hubs.now) (post.now ∷ []))) }
{
    let Some(hub) = hubs.hub_of(post.from) else {
        return Ok(());
    };
    if is_finish(post) {
        return Ok(());
    }
    if is_due(post.key.at, hub.delay(), at) {
        hand_over(boards, hub.members(), post.from, &post.payload, at, notes)
    } else {
        kept.push(*post)?;
        Ok(())
    }
}

/// Hands over those of these posts that are due by now, one after another, and keeps the others that
/// are for other devices, in their order.
fn hand_or_keep_all<D: Device>(
    boards: &mut [NamedBoard<D>],
    hubs: &HubList,
    posts: &[Post],
    at: Micros,
    kept: &mut Vec<Post>,
    notes: &mut Vec<LogItem>,
) -> Result<(), NoMemory>
    requires { AreDevices (outlines boards.old) hubs.now }
    ensures handed { OnOk result (◌≡◌ {A = Handed}
        (record { boards = boards.new; notes = notes.new.items })
        (fold (to_route at.0 (members_of hubs.now))
        (record { boards = boards.old; notes = notes.old.items })
        (due at.0 hubs.now (filter (is_of_a_hub hubs.now) posts.now)))) }
    ensures kept { OnOk result (kept.new.items ≡ kept.old.items
        ++ not_due at.0 hubs.now (filter (is_of_a_hub hubs.now) posts.now)) }
{
    for post in posts {
        hand_or_keep(boards, hubs, post, at, kept, notes)?;
    }
    Ok(())
}

/// Hands over what is due by now, first of the posts that wait and then of those of a round, and gives
/// what the log notes of it. What is not due waits, in the same order.
pub fn hand_over_due<D: Device>(
    alloc: Global,
    boards: &mut [NamedBoard<D>],
    hubs: &HubList,
    pending: &mut Vec<Post>,
    posts: &[Post],
    at: Micros,
) -> Result<Vec<LogItem>, NoMemory>
    requires devices { AreDevices (outlines boards.old) hubs.now }
    requires of_hubs { All (λ post. is_of_a_hub hubs.now post ≡ true) pending.old.items }
    ensures handed { IfOk result (λ notes. ◌≡◌ {A = Handed}
        (record { boards = boards.new; notes = notes.items })
        (to_routes at.0 hubs.now boards.old
        (due at.0 hubs.now (pending.old.items ++ filter (is_of_a_hub hubs.now) posts.now)))) }
    ensures waiting { OnOk result (pending.new.items ≡ not_due at.0 hubs.now
        (pending.old.items ++ filter (is_of_a_hub hubs.now) posts.now)) }
{
    let mut notes = Vec::new(alloc);
    let waited = mem::replace(pending, Vec::new(alloc));
    hand_or_keep_all(boards, hubs, &waited, at, pending, &mut notes)?;
    hand_or_keep_all(boards, hubs, posts, at, pending, &mut notes)?;
    Ok(notes)
}

/// The first post that a finisher made.
pub fn pause_of(posts: &[Post]) -> Option<Post>
    ensures { result ≡ find is_finish posts.now }
{
    posts.iter().copied().find(is_finish)
}

/// What the log says of the pause that a finisher's post asked for.
fn pause_item(at: Micros, post: &Post) -> Option<LogItem>
    ensures { result ≡ round_spec.pause_item at.0 post.now }
{
    let finish = finish_of(&post.payload)?;
    Some(LogItem::Pause {
        at,
        member: post.from,
        finish,
    })
}

/// Puts the pause at the end of the items, if there is one.
pub fn push_pause(
    items: &mut Vec<LogItem>,
    at: Micros,
    pause: &Option<Post>,
) -> Result<(), NoMemory>
    ensures { OnOk result (items.new.items
        ≡ items.old.items ++ round_spec.pause_items at.0 pause.now) }
{
    let Some(post) = pause else {
        return Ok(());
    };
    push(items, &pause_item(at, post))
}
