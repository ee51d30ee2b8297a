//! Reads, writes and allocations that fail.
use crate::bench::{files, run};
use floor_run::NoGate;
use lab_io::{MemSink, MemStore};
use lab_num::NoMemory;
use lab_top::Status;
use std::alloc::Global;
use std::sync::Wait;
use std::test::Fail;
use std::thread::Threads;

/// A board that sends a letter, which is written once the script ends.
const LETTER: &str = "mach create \"m0\"\nmachine LoadPlatformDescription @p.repl\n\
sysbus LoadBinary @a.bin 0x80000000\ncpu PC 0x80000000\nshowAnalyzer sysbus.uart\n\
emulation RunFor \"0.000003\"\n";

/// The same, and then an image that has no place on the board.
const LATE: &str = "mach create \"m0\"\nmachine LoadPlatformDescription @p.repl\n\
sysbus LoadBinary @a.bin 0x80000000\ncpu PC 0x80000000\nshowAnalyzer sysbus.uart\n\
emulation RunFor \"0.000003\"\ncpu PC\nsysbus LoadBinary @a.bin 0\n";

const LATE_LOG: &str = "0x8000000c\n[0.000002] m0/uart: A\nerror: s.resc:8: S16 address\n";

/// A board that reads where nothing is.
const HOLE: &str = "mach create \"m0\"\nmachine LoadPlatformDescription @p.repl\n\
sysbus LoadBinary @hole.bin 0x80000000\ncpu PC 0x80000000\nshowAnalyzer sysbus.uart\n\
emulation RunFor \"0.000004\"\ncpu PC\n";

const HOLE_LOG: &str = "[0.000001] m0/sysbus: read 4 at 0x90000000\n0x00000000\n";

/// A script with several bodies, and a macro.
const BODIES: &str =
    "$name?=\"m0\"\nmacro go\n\"\"\"\ninclude @load.resc\nstart\n\"\"\"\nmach create $name\n\
machine LoadPlatformDescription @using.repl\nrunMacro $go\ncpu PC\n";

const BODIES_LOG: &str = "0x80000000\n0x8000000c\n[0.000002] m0/uart: A\n";

/// A usual script, with variables and a macro that loads the image.
const USUAL: &str =
    ":name: One board\nusing sysbus\n$name?=\"m0\"\n$bin?=@a.bin\nmach create $name\n\
machine LoadPlatformDescription @p.repl\nshowAnalyzer sysbus.uart\nmacro reset\n\"\"\"\n\
    sysbus LoadBinary $bin 0x80000000\n    cpu PC 0x80000000\n\"\"\"\nrunMacro $reset\nstart\n";

const USUAL_LOG: &str = "[0.000002] m0/uart: A\n";

/// The words of each run, by one worker and by two.
static BY_ONE: [&str; 6] = ["run", "s.resc", "--until", "0.000003", "--workers", "1"];

static BY_TWO: [&str; 6] = ["run", "s.resc", "--until", "0.000003", "--workers", "2"];

/// The call of a run that fails, each counted from 0: a read of a file, or a write of the output.
#[derive(Copy, Clone, Debug)]
enum Failing {
    Read(u64),
    Write(u64),
}

/// A script, the call of its run that fails, the number with which it ends, and what it has written.
type Cut = (&'static str, Failing, u8, &'static str);

/// In the last row of reads and of writes of each script no call has this number. Each line is one write.
static CUTS: [Cut; 25] = [
    (USUAL, Failing::Read(0), 4, ""),
    (USUAL, Failing::Read(1), 4, ""),
    (USUAL, Failing::Read(2), 4, ""),
    (USUAL, Failing::Read(3), 0, USUAL_LOG),
    (USUAL, Failing::Write(0), 5, ""),
    (USUAL, Failing::Write(1), 0, USUAL_LOG),
    (HOLE, Failing::Read(0), 4, ""),
    (HOLE, Failing::Read(1), 4, ""),
    (HOLE, Failing::Read(2), 4, ""),
    (HOLE, Failing::Read(3), 0, HOLE_LOG),
    (HOLE, Failing::Write(0), 5, ""),
    (
        HOLE,
        Failing::Write(1),
        5,
        "[0.000001] m0/sysbus: read 4 at 0x90000000\n",
    ),
    (HOLE, Failing::Write(2), 0, HOLE_LOG),
    (BODIES, Failing::Read(0), 4, ""),
    (BODIES, Failing::Read(1), 4, ""),
    (BODIES, Failing::Read(2), 4, ""),
    (BODIES, Failing::Read(3), 4, ""),
    (BODIES, Failing::Read(4), 4, ""),
    (BODIES, Failing::Read(5), 0, BODIES_LOG),
    (BODIES, Failing::Write(0), 5, ""),
    (BODIES, Failing::Write(1), 5, "0x80000000\n"),
    (BODIES, Failing::Write(2), 5, "0x80000000\n0x8000000c\n"),
    (BODIES, Failing::Write(3), 0, BODIES_LOG),
    (LATE, Failing::Read(3), 4, "0x8000000c\n"),
    (LATE, Failing::Read(4), 3, LATE_LOG),
];

/// Whether a run by these words ends as the row says, where the output takes so many bytes at a time.
fn is_cut_by<R: Threads + Wait + Copy + Send + Sync>(
    rt: &R,
    alloc: Global,
    words: &[&str],
    most: usize,
    cut: &Cut,
) -> Result<bool, NoMemory> {
    let (script, failing, number, written) = *cut;
    let mut files = files(alloc, script)?;
    let mut out = MemSink::new(alloc, most.max(1));
    match failing {
        Failing::Read(call) => files.fail_at(call)?,
        Failing::Write(call) => out.fail_at(call)?,
    }
    let mut store = MemStore::new(alloc);
    let status = run(rt, alloc, words, &mut files, &mut out, &mut store, &NoGate)?;
    Ok(status.number() == number && out.bytes() == written.as_bytes())
}

/// The same by one worker and by two.
fn is_cut<R: Threads + Wait + Copy + Send + Sync>(
    rt: &R,
    alloc: Global,
    most: usize,
    cut: &Cut,
) -> Result<bool, NoMemory> {
    Ok(is_cut_by(rt, alloc, &BY_ONE, most, cut)? && is_cut_by(rt, alloc, &BY_TWO, most, cut)?)
}

#[test]
fn a_failed_read_or_write_cuts_a_run_short(rt: HostRuntime) -> Result<(), Fail> {
    for cut in &CUTS {
        let is_cut = is_cut(&rt, rt.alloc(), 4096, cut)?;
        assert!(rt; is_cut, "{cut:?}");
    }
    Ok(())
}

/// Each row: a script, and what it writes.
static LOGS: [(&str, &str); 3] = [(USUAL, USUAL_LOG), (HOLE, HOLE_LOG), (BODIES, BODIES_LOG)];

/// Where the output takes one byte at a time, a run is cut short at each byte, and is whole where no
/// write fails.
fn is_cut_at_each_byte<R: Threads + Wait + Copy + Send + Sync>(
    rt: &R,
    alloc: Global,
    script: &'static str,
    log: &'static str,
) -> Result<bool, NoMemory> {
    for count in 0..log.len() {
        let written = log.get(..count).unwrap_or("?");
        if !is_cut(
            rt,
            alloc,
            1,
            &(script, Failing::Write(count as u64), 5, written),
        )? {
            return Ok(false);
        }
    }
    is_cut(
        rt,
        alloc,
        1,
        &(script, Failing::Write(log.len() as u64), 0, log),
    )
}

#[test]
fn a_failed_write_of_one_byte_cuts_a_run_short(rt: HostRuntime) -> Result<(), Fail> {
    for (script, log) in &LOGS {
        let is_cut = is_cut_at_each_byte(&rt, rt.alloc(), script, log)?;
        assert!(rt; is_cut);
    }
    Ok(())
}

/// Whether a run has done all and written the whole log, or has found no memory and written a front
/// of it.
fn is_whole_or_starved<R: Threads + Wait + Copy + Send + Sync>(
    rt: &R,
    alloc: Global,
    log: &[u8],
) -> Result<bool, NoMemory> {
    let mut files = files(alloc, LETTER)?;
    let mut out = MemSink::new(alloc, 4096);
    let mut store = MemStore::new(alloc);
    let status = run(
        rt, alloc, &BY_ONE, &mut files, &mut out, &mut store, &NoGate,
    )?;
    Ok(match status {
        Status::Done => out.bytes() == log,
        Status::Memory => log.starts_with(out.bytes()),
        _ => false,
    })
}

#[test]
fn a_run_writes_its_log_or_finds_no_memory_and_writes_a_front_of_it(rt: HostRuntime) {
    // By `rt try --test --fail-alloc N` the Nth allocation fails; else none does.
    let found = is_whole_or_starved(&rt, rt.alloc(), b"[0.000002] m0/uart: A\n");
    assert!(rt; found.unwrap_or(true));
}
