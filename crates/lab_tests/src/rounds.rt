//! What a run prints is written round by round.
use crate::bench::{files, run};
use floor_run::Gate;
use lab_io::{MemSink, MemStore};
use lab_num::{BoardNo, NoMemory};
use std::alloc::Global;
use std::sync::Wait;
use std::test::Fail;
use std::thread::Threads;

/// Two boards that read where nothing is in each second microsecond, in eight rounds of one microsecond.
const NARROW: &str = "macro add\n\"\"\"\nmach create\nmachine LoadPlatformDescription @p.repl\n\
sysbus LoadBinary @polls.bin 0x80000000\ncpu PC 0x80000000\n\"\"\"\nrunMacro $add\nrunMacro $add\n\
emulation SetGlobalQuantum \"0.000001\"\nemulation RunFor \"0.000008\"\n";

/// The same in two rounds of four microseconds.
const WIDE: &str = "macro add\n\"\"\"\nmach create\nmachine LoadPlatformDescription @p.repl\n\
sysbus LoadBinary @polls.bin 0x80000000\ncpu PC 0x80000000\n\"\"\"\nrunMacro $add\nrunMacro $add\n\
emulation SetGlobalQuantum \"0.000004\"\nemulation RunFor \"0.000008\"\n";

/// What is printed of each second microsecond.
const LINES: [&str; 4] = [
    "[0.000001] machine-0/sysbus: read 4 at 0x90000000\n[0.000001] machine-1/sysbus: read 4 at 0x90000000\n",
    "[0.000003] machine-0/sysbus: read 4 at 0x90000000\n[0.000003] machine-1/sysbus: read 4 at 0x90000000\n",
    "[0.000005] machine-0/sysbus: read 4 at 0x90000000\n[0.000005] machine-1/sysbus: read 4 at 0x90000000\n",
    "[0.000007] machine-0/sysbus: read 4 at 0x90000000\n[0.000007] machine-1/sysbus: read 4 at 0x90000000\n",
];

/// A gate that lets everyone through, and asks for workers on threads however short a run is.
#[derive(Drop)]
struct Passed;

impl Gate for Passed {
    fn enter(&self, _board: BoardNo) {}
}

/// A script, the number of the write that fails, counted from 0, the number with which the run ends, and how many of
/// the lines it has written.
type Row = (&'static str, u64, u8, usize);

/// In the last row of each script no write has this number: a round with lines is one write, and one without is none.
static ROWS: [Row; 8] = [
    (NARROW, 0, 5, 0),
    (NARROW, 1, 5, 1),
    (NARROW, 2, 5, 2),
    (NARROW, 3, 5, 3),
    (NARROW, 4, 0, 4),
    (WIDE, 0, 5, 0),
    (WIDE, 1, 5, 2),
    (WIDE, 2, 0, 4),
];

/// The first so many of the lines.
fn front(alloc: Global, count: usize) -> Result<String, NoMemory> {
    let mut text = String::new(alloc);
    for line in LINES.iter().take(count) {
        text.push_str(line)?;
    }
    Ok(text)
}

/// Whether a run by so many workers ends as the row says.
fn is_cut_by<R: Threads + Wait + Copy + Send + Sync>(
    rt: &R,
    alloc: Global,
    workers: &str,
    row: &Row,
) -> Result<bool, NoMemory> {
    let (script, failing, number, count) = *row;
    let mut files = files(alloc, script)?;
    let mut out = MemSink::new(alloc, 4096);
    out.fail_at(failing)?;
    let mut store = MemStore::new(alloc);
    let words = ["run", "s.resc", "--workers", workers];
    let status = run(rt, alloc, &words, &mut files, &mut out, &mut store, &Passed)?;
    let written = front(alloc, count)?;
    Ok(status.number() == number && out.bytes() == written.as_bytes())
}

#[test]
fn a_failed_write_leaves_the_rounds_before_it(rt: HostRuntime) -> Result<(), Fail> {
    for row in &ROWS {
        let is_cut = is_cut_by(&rt, rt.alloc(), "1", row)? && is_cut_by(&rt, rt.alloc(), "2", row)?;
        assert!(rt; is_cut, "{row:?}");
    }
    Ok(())
}
