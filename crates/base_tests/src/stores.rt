//! Stores in memory, and the real one.

use lab_io::{DiskStore, MemStore, ReadAnswer, Store, StoreAnswer};
use std::alloc::Global;
use std::os::unix::fs::symlink;
use std::test::Fail;
use std::{fs, io, rt};

/// A call on a store, and what it answers.
#[derive(Clone, Copy)]
enum Call {
    /// A name and bytes.
    Put(&'static str, &'static [u8], StoreAnswer),
    /// A name, the most bytes that are asked for, the answer, and the bytes that it gives.
    Get(&'static str, usize, ReadAnswer, &'static [u8]),
}

/// Whether a call answers as expected.
fn answers<S: Store>(alloc: Global, store: &mut S, call: &Call) -> bool {
    match *call {
        Call::Put(name, bytes, answer) => store.put(name, bytes) == answer,
        Call::Get(name, limit, answer, bytes) => {
            let mut into = Vec::new(alloc);
            limit <= 30_000
                && store.get(name, limit, &mut into) == answer
                && into.as_slice() == bytes
        }
    }
}

/// Calls 3, 6 and 11 are to fail. What was kept stays where a put fails.
static IN_MEMORY: [Call; 13] = [
    Call::Get("a", 64, ReadAnswer::Failed, b""),
    Call::Put("a", b"one", StoreAnswer::Done),
    Call::Get("a", 64, ReadAnswer::Done, b"one"),
    Call::Put("a", b"two", StoreAnswer::Failed),
    Call::Get("a", 64, ReadAnswer::Done, b"one"),
    Call::Put("a", b"three", StoreAnswer::Done),
    Call::Get("a", 64, ReadAnswer::Failed, b""),
    Call::Get("a", 5, ReadAnswer::Done, b"three"),
    Call::Get("a", 4, ReadAnswer::TooLarge, b""),
    Call::Put("", b"", StoreAnswer::Done),
    Call::Get("", 0, ReadAnswer::Done, b""),
    Call::Put("b", b"four", StoreAnswer::Failed),
    Call::Get("b", 64, ReadAnswer::Failed, b""),
];

#[test]
fn a_store_keeps_the_last_bytes_of_a_name(rt: HostRuntime) -> Result<(), Fail> {
    let alloc = rt.alloc();
    let mut store = MemStore::new(alloc);
    store.fail_at(3)?;
    store.fail_at(6)?;
    store.fail_at(11)?;
    for (place, call) in IN_MEMORY.iter().enumerate() {
        assert!(rt; answers(alloc, &mut store, call), "call {place}");
    }
    Ok(())
}

/// A folder that is not there has no files, and takes none.
static ON_DISK: [Call; 7] = [
    Call::Get("lab_io_kept", 64, ReadAnswer::Failed, b""),
    Call::Put("lab_io_kept", b"one", StoreAnswer::Done),
    Call::Put("lab_io_kept", b"three", StoreAnswer::Done),
    Call::Get("lab_io_kept", 5, ReadAnswer::Done, b"three"),
    Call::Get("lab_io_kept", 4, ReadAnswer::TooLarge, b""),
    Call::Put("lab_io_no_such_folder/kept", b"one", StoreAnswer::Failed),
    Call::Get("lab_io_no_such_folder/kept", 64, ReadAnswer::Failed, b""),
];

#[test]
fn a_real_file_is_written_whole(rt: HostRuntime) -> Result<(), Fail> {
    let alloc = rt.alloc();
    for (place, call) in ON_DISK.iter().enumerate() {
        assert!(rt;
            answers(alloc, &mut DiskStore::new(&rt, alloc), call),
            "call {place}"
        );
    }
    let is_finished = fs::open(&rt, ".lab-0").is_err();
    assert!(rt; is_finished);
    fs::remove_file(&rt, "lab_io_kept")?;
    Ok(())
}

/// In a folder with a file that stands where a side file would, a folder, and links: to a file, and to nothing.
static BESIDE: [Call; 8] = [
    Call::Put("lab_io_room/file", b"one", StoreAnswer::Done),
    Call::Get("lab_io_room/.lab-0", 64, ReadAnswer::Done, b"of another"),
    Call::Put("lab_io_room/link", b"two", StoreAnswer::Done),
    Call::Get("lab_io_room/file", 64, ReadAnswer::Done, b"two"),
    Call::Get("lab_io_room/link", 64, ReadAnswer::Done, b"two"),
    Call::Put("lab_io_room/nowhere", b"three", StoreAnswer::Failed),
    Call::Put("lab_io_room/folder", b"four", StoreAnswer::Failed),
    Call::Put("lab_io_room/.lab-0", b"five", StoreAnswer::Done),
];

/// Makes that folder.
fn make_room<R: rt::Files>(rt: &R) -> io::Result<()> {
    fs::create_dir(rt, "lab_io_room")?;
    fs::create_dir(rt, "lab_io_room/folder")?;
    fs::write(rt, "lab_io_room/.lab-0", "of another")?;
    symlink(rt, "file", "lab_io_room/link")?;
    symlink(rt, "none", "lab_io_room/nowhere")
}

/// Whether a name is that of a link.
fn is_link<R: rt::Files>(rt: &R, name: &str) -> bool {
    match fs::symlink_metadata(rt, name) {
        Ok(found) => found.is_symlink(),
        Err(_) => false,
    }
}

#[test]
fn a_put_leaves_other_files(rt: HostRuntime) -> Result<(), Fail> {
    let alloc = rt.alloc();
    make_room(&rt)?;
    for (place, call) in BESIDE.iter().enumerate() {
        assert!(rt;
            answers(alloc, &mut DiskStore::new(&rt, alloc), call),
            "call {place}"
        );
    }
    assert!(rt; is_link(&rt, "lab_io_room/link"));
    fs::remove_dir_all(&rt, "lab_io_room")?;
    Ok(())
}
