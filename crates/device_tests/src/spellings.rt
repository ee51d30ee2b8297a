//! Values that are in no snapshot, and their bytes by docs/SNAPSHOTS.md: names are ASCII, and what a finisher sends is
//! never under way.
use dev_core::{Finish, Payload, Post};
use lab_encoding::{SnapFault, Spelled, load, save};
use lab_num::{BoardNo, Key, Member, Micros, NoMemory, PostNo, Rows, Text};
use std::alloc::Global;
use std::test::Fail;

/// Whether a value is saved as these bytes, and they are loaded as the value.
fn is_spelled<T: Spelled + Drop + PartialEq>(
    alloc: Global,
    value: &T,
    bytes: &[u8],
) -> Result<bool, NoMemory> {
    let saved = save(alloc, value)?;
    match load::<T>(alloc, bytes) {
        Ok(loaded) => Ok(saved.as_slice() == bytes && loaded == *value),
        Err(SnapFault::Bad) => Ok(false),
        Err(SnapFault::Memory) => Err(NoMemory),
    }
}

/// What device 1 of board 3 sends at a time.
fn post(at: u64, finish: Finish) -> Post {
    let board = BoardNo(3);
    let key = Key {
        at: Micros(at),
        board,
        number: PostNo(5),
    };
    Post {
        key,
        from: Member { board, dev: 1 },
        payload: Payload::Finish(finish),
    }
}

/// How many there are, and of each the time, the board and the number, the sender, and the payload.
static POSTS: [u8; 52] = [
    2, 0, 0, 0, 0, 0, 0, 0, 4, 1, 0, 0, 0, 0, 0, 0, 3, 5, 0, 0, 0, 0, 0, 0, 0, 3, 1, 2, 0, 5, 1, 0,
    0, 0, 0, 0, 0, 3, 5, 0, 0, 0, 0, 0, 0, 0, 3, 1, 2, 1, 2, 1,
];

#[test]
fn what_no_snapshot_holds_has_its_bytes_too(rt: HostRuntime) -> Result<(), Fail> {
    let alloc = rt.alloc();
    let text = Text::of(alloc, "a\u{e9}")?;
    let text = is_spelled(alloc, &text, &[3, 0, 0, 0, 0, 0, 0, 0, b'a', 0xc3, 0xa9])?;
    let list = is_spelled(
        alloc,
        &Rows::of(vec![in alloc; 1_u16, 0x0203]?),
        &[2, 0, 0, 0, 0, 0, 0, 0, 1, 0, 3, 2],
    )?;
    assert!(rt; text && list);
    let posts = Rows::of(vec![in alloc;
        post(0x104, Finish::Pass),
        post(0x105, Finish::Fail(0x102)),
    ]?);
    let posts = is_spelled(alloc, &posts, &POSTS)?;
    assert!(rt; posts);
    Ok(())
}
