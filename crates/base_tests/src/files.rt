//! Files in memory, and real ones.

use lab_io::{DiskFiles, Files, MemFiles, ReadAnswer, ReadFault, TextFault, read_file, read_text};
use std::alloc::{AllocError, Global};
use std::test::Fail;
use std::{fs, rt};

/// Whether a read of at most `limit` bytes answers so and gives these bytes.
fn reads<F: Files>(
    alloc: Global,
    files: &mut F,
    (name, limit): (&str, usize),
    answer: ReadAnswer,
    bytes: &[u8],
) -> bool {
    let mut into = Vec::new(alloc);
    limit <= 30_000 && files.read(name, limit, &mut into) == answer && into.as_slice() == bytes
}

/// What is asked for and how much of it at most, and the answer with its bytes.
static IN_MEMORY: [((&str, usize), ReadAnswer, &[u8]); 8] = [
    (("three", 64), ReadAnswer::Done, b"abc"),
    (("three", 3), ReadAnswer::Done, b"abc"),
    (("three", 2), ReadAnswer::TooLarge, b""),
    (("empty", 0), ReadAnswer::Done, b""),
    (("absent", 64), ReadAnswer::Failed, b""),
    (("", 64), ReadAnswer::Failed, b""),
    (("three", 64), ReadAnswer::Failed, b""),
    (("three", 64), ReadAnswer::Done, b"abc"),
];

#[test]
fn a_read_answers_by_name_limit_and_number(rt: HostRuntime) -> Result<(), Fail> {
    let alloc = rt.alloc();
    let mut files = MemFiles::new(alloc);
    files.put("three", b"one")?;
    files.put("empty", b"")?;
    files.put("three", b"abc")?;
    files.fail_at(6)?;
    for (asked, answer, bytes) in &IN_MEMORY {
        assert!(rt;
            reads(alloc, &mut files, *asked, *answer, bytes),
            "{asked:?}"
        );
    }
    Ok(())
}

/// Files and the bytes that they hold, of which the last two are no text.
static TEXTS: [(&str, &[u8]); 5] = [
    ("empty", b""),
    ("plain", b"a\r\nb"),
    ("accent", b"\xc3\xa9\n"),
    ("broken", b"a\n\xc3\xa9\n\xff\n\xff"),
    ("cut", b"\xe2\x82"),
];

/// What is read of them as a text.
static READ_AS_TEXT: [(&str, Result<&str, TextFault>); 6] = [
    ("empty", Ok("")),
    ("plain", Ok("a\r\nb")),
    ("accent", Ok("\u{e9}\n")),
    ("broken", Err(TextFault::NotText { line: 3 })),
    ("cut", Err(TextFault::NotText { line: 1 })),
    ("absent", Err(TextFault::Unread)),
];

/// Whether the text of a file is as expected.
fn has_text(
    alloc: Global,
    files: &mut MemFiles,
    (name, expected): &(&str, Result<&str, TextFault>),
) -> bool {
    match (read_text(alloc, files, name), expected) {
        (Ok(text), Ok(expected)) => text.as_str() == *expected,
        (Err(fault), Err(expected)) => fault == *expected,
        _ => false,
    }
}

/// Whether a file is read whole as these bytes.
fn has_bytes(alloc: Global, files: &mut MemFiles, (name, expected): &(&str, &[u8])) -> bool {
    match read_file(alloc, files, name) {
        Ok(bytes) => bytes.as_slice() == *expected,
        Err(_) => false,
    }
}

/// Whether a read that is to fail answers so, as bytes and as a text.
fn fails(alloc: Global, files: &mut MemFiles) -> bool {
    let bytes = read_file(alloc, files, "plain");
    let text = read_text(alloc, files, "plain");
    matches!(bytes, Err(ReadFault::Unread)) && matches!(text, Err(TextFault::Unread))
}

#[test]
fn whole_files_are_bytes_and_texts(rt: HostRuntime) -> Result<(), Fail> {
    let alloc = rt.alloc();
    let mut files = MemFiles::new(alloc);
    for &(name, bytes) in &TEXTS {
        files.put(name, bytes)?;
    }
    files.fail_at(11)?;
    files.fail_at(12)?;
    assert!(rt; TEXTS.iter().all(|row| has_bytes(alloc, &mut files, row)));
    assert!(rt;
        READ_AS_TEXT
            .iter()
            .all(|row| has_text(alloc, &mut files, row))
    );
    assert!(rt; fails(alloc, &mut files));
    Ok(())
}

/// 20,000 bytes, of which no two pieces of 251 bytes that lie 256 apart are alike.
fn varied_bytes(alloc: Global) -> Result<Vec<u8>, AllocError> {
    (0..20_000_u32).map(|i| (i % 251) as u8).collect(alloc)
}

/// What is asked for and how much of it at most, and the answer. A folder may be opened, and not be
/// read.
static ON_DISK: [((&str, usize), ReadAnswer); 5] = [
    (("lab_io_real_file", 30_000), ReadAnswer::Done),
    (("lab_io_real_file", 20_000), ReadAnswer::Done),
    (("lab_io_real_file", 19_999), ReadAnswer::TooLarge),
    (("lab_io_no_such_file", 64), ReadAnswer::Failed),
    ((".", 64), ReadAnswer::Failed),
];

/// Whether the real files answer as the table says, where the one of that name has these bytes.
fn disk_reads<R: rt::Files>(rt: &R, alloc: Global, bytes: &[u8]) -> bool {
    let mut files = DiskFiles::new(rt);
    ON_DISK.iter().all(|(asked, answer)| {
        let expected = if *answer == ReadAnswer::Done {
            bytes
        } else {
            &[]
        };
        reads(alloc, &mut files, *asked, *answer, expected)
    })
}

#[test]
fn real_files_are_read_whole(rt: HostRuntime) -> Result<(), Fail> {
    let alloc = rt.alloc();
    let bytes = varied_bytes(alloc)?;
    fs::write(&rt, "lab_io_real_file", bytes.as_slice())?;
    assert!(rt; disk_reads(&rt, alloc, &bytes));
    fs::remove_file(&rt, "lab_io_real_file")?;
    Ok(())
}
