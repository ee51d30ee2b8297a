//! Toys on a floor: lists of events that stop, and all orders of what three workers do.
ghost use Rattle.std.specs.Prelude.{◌≡◌, ◌<◌, [], length, IfOk};

use crate::toy::Toy;
use crate::words::{event, events_of};
use dev_core::{Payload, Post};
use floor_core::{Event, Floor, Job, Ran};
use lab_num::{BoardNo, Key, Member, Micros, NoMemory, PostNo};
use std::alloc::Global;
use std::process::Abort;
use std::test::Fail;

/// The post number `number` of a board, which it makes at `at`.
fn post(board: u8, at: u64, number: u64) -> Post {
    let board = BoardNo(board);
    Post {
        key: Key {
            at: Micros(at),
            board,
            number: PostNo(number),
        },
        from: Member { board, dev: 0 },
        payload: Payload::Byte(b'A'),
    }
}

/// A toy with so many slots that make nothing, and then one that makes a post.
pub fn late_toy(alloc: Global, board: u8, idle: usize) -> Result<Toy, NoMemory>
    ensures { IfOk result (λ toy. toy.unsent.items ≡ []) }
{
    let mut slots = vec![in alloc; None; idle]?;
    slots.push(Some(post(board, 9, 0)))?;
    Ok(Toy::new(alloc, slots))
}

/// Two boards of ten slots: the first makes one post in its last slot, the second makes none.
fn two_boards(alloc: Global) -> Result<Floor<Toy>, NoMemory> {
    let mut slots = vec![in alloc; None; 9]?;
    slots.push(Some(post(0, 9, 0)))?;
    let first = Toy::new(alloc, slots);
    let second = Toy::new(alloc, vec![in alloc; None; 10]?);
    Floor::begin(alloc, vec![in alloc; first, second]?)
}

/// Each row: events, what becomes of them, and whether the floor is ended then.
static STOPS: [(&str, Ran, bool); 16] = [
    ("c01a c111", Ran::Stopped(1), false),
    ("c019 r01 c111", Ran::All, false),
    ("c019 r01 c112", Ran::Stopped(2), false),
    ("c01b", Ran::Stopped(0), false),
    ("c010", Ran::Stopped(0), false),
    ("c021", Ran::Stopped(0), false),
    ("c00a r00", Ran::Stopped(1), false),
    ("c009 r00", Ran::All, false),
    ("c00a p10", Ran::Stopped(1), false),
    ("c00a p00 p00", Ran::Stopped(2), false),
    ("c00a p00 r10", Ran::Stopped(2), false),
    ("c00a p00 r00 c101", Ran::Stopped(3), false),
    ("e", Ran::Stopped(0), false),
    ("c00a p00 r00 c11a e", Ran::Stopped(4), false),
    ("c00a c11a p00 r00 r11 e", Ran::All, true),
    ("c00a c11a p00 r00 r11 e e", Ran::Stopped(6), true),
];

/// What becomes of these events with two boards, and whether the floor is ended then.
fn ran(alloc: Global, text: &str) -> Result<(Ran, bool), NoMemory> {
    let events = events_of(alloc, text)?;
    let mut floor = two_boards(alloc)?;
    let ran = floor.run_events(&events);
    Ok((ran, floor.is_ended()))
}

fn assert_stops(
    rt: &impl Abort,
    alloc: Global,
    rows: &[(&str, Ran, bool)],
) -> Result<(), NoMemory> {
    for (text, expected, ended) in rows {
        let is_so = ran(alloc, text)? == (*expected, *ended);
        assert!(rt; is_so, "{text}");
    }
    Ok(())
}

#[test]
fn a_list_stops_at_its_first_event_that_is_not_legal(rt: HostRuntime) -> Result<(), Fail> {
    assert_stops(&rt, rt.alloc(), &STOPS)?;
    Ok(())
}

/// What the workers do with each of three boards, in order.
const SCRIPTS: [&str; 3] = ["c002 p00 p00 r00", "c112 p11 r11", "c023 r02"];

/// The words of all scripts, each taken from the script that the next ternary digit of `code` names, and a close; or
/// nothing where a script is named more often than it has words.
fn order(alloc: Global, code: u32) -> Result<Option<Vec<Event>>, NoMemory> {
    let mut scripts = SCRIPTS.map(|script| script.split(' '));
    let mut rest = code;
    let mut events = Vec::new(alloc);
    for _ in 0..9 {
        let board = (rest % 3) as usize;
        rest /= 3;
        let Some(word) = scripts[board].next() else {
            return Ok(None);
        };
        events.push(event(word.as_bytes()))?;
    }
    events.push(Event::Close)?;
    Ok(Some(events))
}

/// The boards of the scripts.
fn three_boards(alloc: Global) -> Result<Floor<Toy>, NoMemory>
    ensures { IfOk result (λ floor. length floor.boards ≡ 3) }
{
    let first = Toy::new(
        alloc,
        vec![in alloc; Some(post(0, 0, 0)), Some(post(0, 3, 1))]?,
    );
    let second = Toy::new(alloc, vec![in alloc; None, Some(post(1, 2, 0))]?);
    let third = Toy::new(alloc, vec![in alloc; None; 3]?);
    Floor::begin(alloc, vec![in alloc; first, second, third]?)
}

/// Their posts in rising order of key.
fn all_posts() -> [Post; 3] {
    [post(0, 0, 0), post(1, 2, 0), post(0, 3, 1)]
}

/// The posts in the mail in rising order of key.
fn listed(alloc: Global, floor: &Floor<Toy>) -> Result<Vec<Post>, NoMemory> {
    let mut posts = Vec::new(alloc);
    for mailed in floor.mail() {
        posts.push(mailed.post)?;
    }
    posts.sort_by_key(|post| post.key)?;
    Ok(posts)
}

/// The board has used so many slots, and has nothing left and nothing unsent.
fn is_done(floor: &Floor<Toy>, board: u8, slots: u64) -> bool
    requires { board < length floor.now.boards }
{
    let board = BoardNo(board);
    let job = floor.job(board);
    floor.used(board) == slots && job.left() == 0 && job.next_post().is_none()
}

/// Whether the mail has what each order of the scripts leaves in it.
fn are_posted(alloc: Global, floor: &Floor<Toy>) -> Result<bool, NoMemory> {
    let posts = listed(alloc, floor)?;
    Ok(posts.as_slice() == all_posts().as_slice())
}

/// The events all happen, end the floor, and leave what each order of the scripts leaves.
fn come_to_the_same(alloc: Global, events: &[Event]) -> Result<bool, NoMemory> {
    let mut floor = three_boards(alloc)?;
    let ran = floor.run_events(events);
    let are_done = is_done(&floor, 0, 2) && is_done(&floor, 1, 2) && is_done(&floor, 2, 3);
    if ran == Ran::All && floor.is_ended() && are_done {
        are_posted(alloc, &floor)
    } else {
        Ok(false)
    }
}

#[test]
fn all_orders_of_three_boards_come_to_the_same(rt: HostRuntime) -> Result<(), Fail> {
    let mut orders = 0_u32;
    for code in 0..19_683 {
        if let Some(events) = order(rt.alloc(), code)? {
            assert!(rt; come_to_the_same(rt.alloc(), &events)?);
            orders = orders.saturating_add(1);
        }
    }
    assert_eq!(rt; orders, 1_260);
    Ok(())
}
