//! What is drained of each board is what its pass has posted, in order.
ghost use Rattle.std.specs.Prelude.{◌≡◌, ℕ, ◌+◌, ◌≤◌, All, [], length, IfOk};
ghost use Rattle.hub_mail.specs.Pass.{fresh_passes};

use dev_core::{Payload, Post};
use hub_mail::{Boss, Mail, Pass};
use lab_num::{BoardNo, Key, Member, Micros, NoMemory, PostNo};
use std::alloc::Global;
use std::process::Abort;
use std::sync::Wait;
use std::test::Fail;
use std::thread;
use std::thread::Threads;

/// A byte that a board posts.
fn post(board: u8, number: u64) -> Post
    ensures board { result.key.board.0 ≡ board }
    ensures number { result.key.number.0 ≡ number }
{
    let board = BoardNo(board);
    Post {
        key: Key {
            at: Micros(7),
            board,
            number: PostNo(number),
        },
        from: Member { board, dev: 0 },
        payload: Payload::Byte(b'A'),
    }
}

/// The pass of a board, after posts that are numbered from 0 up to `count`.
fn posted<R: Wait>(rt: &R, mut pass: Pass, board: u8, count: u64) -> Result<Pass, NoMemory>
    requires board { pass.board ≡ board }
    requires new { pass.posted ≡ [] }
    ensures mail { IfOk result (λ after. after.mail ≡ pass.mail) }
{
    for number in 0..count {
        let Ok(()) = pass.post(rt, post(board, number)) else {
            return Err(NoMemory);
        };
    }
    Ok(pass)
}

/// All passes after their posts, that of the last board first.
fn all_posted<R: Wait>(
    rt: &R,
    alloc: Global,
    boss: &Boss,
    mut passes: Vec<Pass>,
    counts: &[u64],
) -> Result<Vec<Pass>, NoMemory>
    requires passes { passes.items ≡ fresh_passes boss.now.mail (length counts.now) }
    requires some { length counts.now ≤ 16 }
    ensures mail { IfOk result (λ all. All (λ p. p.mail ≡ boss.now.mail) all.items) }
    ensures len { IfOk result (λ all. length all.items ≡ length counts.now) }
{
    let mut all = Vec::new(alloc);
    while let Some(pass) = passes.pop() {
        let board = passes.len();
        all.push(posted(rt, pass, board as u8, counts[board])?)?;
    }
    Ok(all)
}

/// Takes the passes in, the last of the list first.
fn take_all<R: Wait>(rt: &R, boss: &mut Boss, mut passes: Vec<Pass>)
    requires mail { All (λ p. p.mail ≡ boss.old.mail) passes.items }
    ensures taken { length boss.new.taken ≡ length boss.old.taken + length passes.items }
    ensures count { boss.new.count ≡ boss.old.count }
{
    while let Some(pass) = passes.pop() {
        boss.take_in(rt, pass);
    }
}

/// What is drained where each board posts so many, and the passes are taken in from the first board
/// on or from the last one. No mail has more than 16 boards, or none.
fn drained<R: Wait>(
    rt: &R,
    alloc: Global,
    counts: &[u64],
    from_last: bool,
) -> Result<Vec<Post>, NoMemory> {
    if counts.is_empty() || counts.len() > 16 {
        return Ok(Vec::new(alloc));
    }
    let (mut boss, passes) = Mail::begin(rt, alloc, counts.len() as u8)?;
    let mut passes = all_posted(rt, alloc, &boss, passes, counts)?;
    if from_last {
        passes.reverse();
    }
    take_all(rt, &mut boss, passes);
    boss.drain(rt)
}

/// What is drained where two threads post beside each other, each for a board.
fn drained_of_two<R: Threads + Wait + Sync>(
    rt: &R,
    alloc: Global,
    counts: (u64, u64),
) -> Result<Vec<Post>, NoMemory> {
    let (mut boss, mut passes) = Mail::begin(rt, alloc, 2)?;
    let second = passes.pop().unwrap();
    let first = passes.pop().unwrap();
    let (first, second) = thread::join(
        rt,
        move || -> Result<Pass, NoMemory>
            requires board { first.board ≡ 0 }
            requires new { first.posted ≡ [] }
            ensures { IfOk result (λ p. p.mail ≡ first.mail) }
        { posted(rt, first, 0, counts.0) },
        move || -> Result<Pass, NoMemory>
            requires board { second.board ≡ 1 }
            requires new { second.posted ≡ [] }
            ensures { IfOk result (λ p. p.mail ≡ second.mail) }
        { posted(rt, second, 1, counts.1) },
    );
    boss.take_in(rt, first?);
    boss.take_in(rt, second?);
    boss.drain(rt)
}

/// Whether the posts of each board are numbered from 0 up to its count, in order, and there are no
/// others.
fn are_in_order(posts: &[Post], counts: &[u64]) -> bool {
    for (board, count) in counts.iter().enumerate() {
        let of_board = posts
            .iter()
            .filter(|post| usize::from(post.key.board.0) == board);
        if !of_board.map(|post| post.key.number.0).eq(0..*count) {
            return false;
        }
    }
    posts
        .iter()
        .all(|post| usize::from(post.key.board.0) < counts.len())
}

/// How many posts each board makes, in order of board, and whether the passes are taken in from the
/// last board on. A block of the queue holds 31 posts.
static MAILS: [(&[u64], bool); 7] = [
    (&[1, 2], false),
    (&[1, 2], true),
    (&[0, 3], false),
    (&[0], true),
    (&[31, 1], false),
    (&[100, 0, 70], true),
    (
        &[0, 1, 2, 3, 4, 5, 6, 7, 8, 9, 10, 11, 12, 13, 14, 15],
        false,
    ),
];

#[test]
fn each_board_is_drained_in_its_order(rt: HostRuntime) -> Result<(), Fail> {
    for (counts, from_last) in &MAILS {
        let posts = drained(&rt, rt.alloc(), counts, *from_last)?;
        let right = are_in_order(&posts, counts);
        assert!(rt; right, "{counts:?}");
    }
    Ok(())
}

#[test]
fn two_threads_post_beside_each_other(rt: HostRuntime) -> Result<(), Fail> {
    for _ in 0..500 {
        let posts = drained_of_two(&rt, rt.alloc(), (100, 70))?;
        let right = are_in_order(&posts, &[100, 70]);
        assert!(rt; right);
    }
    Ok(())
}
