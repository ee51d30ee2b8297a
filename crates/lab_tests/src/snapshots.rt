//! Laboratories that scripts keep and take back.
use crate::bench::{files, run};
use floor_run::NoGate;
use lab_io::{MemSink, MemStore, ReadAnswer, Store, StoreAnswer};
use lab_num::NoMemory;
use std::alloc::Global;
use std::sync::Wait;
use std::test::Fail;
use std::thread::Threads;

/// The laboratory in which nothing was made: its mark, time 0, a quantum of 100, and four lists without
/// members.
const EMPTY: &[u8] = b"LABSNAP1\0\0\0\0\0\0\0\0\x64\0\0\0\0\0\0\0\
\0\0\0\0\0\0\0\0\0\0\0\0\0\0\0\0\0\0\0\0\0\0\0\0\0\0\0\0\0\0\0\0";

/// Its bytes without the last one.
const CUT: &[u8] = b"LABSNAP1\0\0\0\0\0\0\0\0\x64\0\0\0\0\0\0\0\
\0\0\0\0\0\0\0\0\0\0\0\0\0\0\0\0\0\0\0\0\0\0\0\0\0\0\0\0\0\0\0";

const SAVE: &str = "Save @x\n";

const LOAD: &str = "Load @x\n";

const OCCUPIED: &str = "mach create \"a\"\nLoad @x\n";

/// Three calls on the store. A line is printed before the last of them.
const THREE: &str =
    "Save @x\nLoad @x\nmach create \"m0\"\nmachine LoadPlatformDescription @p.repl\n\
include @load.resc\nSave @y\n";

const PRINTED: &str = "0x80000000\n";

/// How a script is called, what the store keeps under `x` before, the call of the store that fails, counted
/// from 0, the number with which the run ends, and what it has written.
type Row = (
    &'static str,
    &'static str,
    Option<&'static [u8]>,
    Option<u64>,
    u8,
    &'static str,
);

/// Where call 0 fails and the number is not 6, the store was not called.
static ROWS: [Row; 15] = [
    ("run", SAVE, None, None, 0, ""),
    ("run", SAVE, None, Some(0), 6, ""),
    ("check", SAVE, None, Some(0), 0, ""),
    ("run", LOAD, Some(EMPTY), None, 0, ""),
    ("run", LOAD, Some(EMPTY), Some(0), 6, ""),
    ("check", LOAD, Some(EMPTY), None, 0, ""),
    ("check", LOAD, Some(EMPTY), Some(0), 6, ""),
    ("run", LOAD, None, None, 6, ""),
    (
        "run",
        LOAD,
        Some(CUT),
        None,
        3,
        "error: s.resc:1: S20 snapshot\n",
    ),
    (
        "run",
        OCCUPIED,
        None,
        Some(0),
        3,
        "error: s.resc:2: S21 occupied\n",
    ),
    (
        "check",
        OCCUPIED,
        None,
        Some(0),
        3,
        "error: s.resc:2: S21 occupied\n",
    ),
    ("run", THREE, None, Some(0), 6, ""),
    ("run", THREE, None, Some(1), 6, ""),
    ("run", THREE, None, Some(2), 6, PRINTED),
    ("run", THREE, None, Some(3), 0, PRINTED),
];

/// A store that keeps these bytes under `x`, if any.
fn store_of(alloc: Global, kept: Option<&[u8]>) -> Result<MemStore, NoMemory> {
    let mut store = MemStore::new(alloc);
    if let Some(bytes) = kept {
        if store.put("x", bytes) != StoreAnswer::Done {
            return Err(NoMemory);
        }
    }
    Ok(store)
}

/// Whether a run of this script over the store ends with this number and writes this.
fn is_run_so<R: Threads + Wait + Copy + Send + Sync>(
    rt: &R,
    alloc: Global,
    (word, script): (&str, &str),
    store: &mut MemStore,
    (number, written): (u8, &str),
) -> Result<bool, NoMemory> {
    let mut files = files(alloc, script)?;
    let mut out = MemSink::new(alloc, 4096);
    let status = run(
        rt,
        alloc,
        &[word, "s.resc"],
        &mut files,
        &mut out,
        store,
        &NoGate,
    )?;
    Ok(status.number() == number && out.bytes() == written.as_bytes())
}

/// Whether a run ends as the row says. What the store keeps before it was put by its call 0.
fn is_row<R: Threads + Wait + Copy + Send + Sync>(
    rt: &R,
    alloc: Global,
    row: &Row,
) -> Result<bool, NoMemory> {
    let (word, script, kept, failing, number, written) = *row;
    let mut store = store_of(alloc, kept)?;
    if let Some(call) = failing {
        store.fail_at(if kept.is_some() {
            call.saturating_add(1)
        } else {
            call
        })?;
    }
    is_run_so(rt, alloc, (word, script), &mut store, (number, written))
}

#[test]
fn a_store_is_called_where_a_script_saves_and_loads(rt: HostRuntime) -> Result<(), Fail> {
    for row in &ROWS {
        let is_row = is_row(&rt, rt.alloc(), row)?;
        assert!(rt; is_row, "{row:?}");
    }
    Ok(())
}

#[test]
fn an_empty_laboratory_is_kept_as_56_bytes(rt: HostRuntime) -> Result<(), Fail> {
    let mut store = MemStore::new(rt.alloc());
    let is_saved = is_run_so(&rt, rt.alloc(), ("run", SAVE), &mut store, (0, ""))?;
    let mut bytes = Vec::new(rt.alloc());
    assert!(rt; is_saved && store.get("x", 64, &mut bytes) == ReadAnswer::Done);
    assert!(rt; bytes.as_slice() == EMPTY && bytes.len() == 56);
    Ok(())
}

/// A board whose UART is a hub's, and which sends a letter in its second microsecond, saved before that.
const BEFORE: &str = "mach create \"m0\"\nmachine LoadPlatformDescription @p.repl\n\
emulation CreateUARTHub \"h\"\nconnector Connect sysbus.uart h\ninclude @load.resc\n\
emulation RunFor \"0.000001\"\nSave @x\n";

/// It goes on, and its time is that of the saved one.
const AFTER: &str =
    "Load @x\nemulation RunFor \"0.000002\"\nmach set \"m0\"\ncpu PC\nemulation RunFor \"0.000001\"\n";

const AFTER_LOG: &str = "0x8000000c\n[0.000002] m0/uart: A\n";

#[test]
fn a_laboratory_that_was_saved_goes_on(rt: HostRuntime) -> Result<(), Fail> {
    let mut store = MemStore::new(rt.alloc());
    let is_saved = is_run_so(&rt, rt.alloc(), ("run", BEFORE), &mut store, (0, PRINTED))?;
    assert!(rt; is_saved);
    let goes_on = is_run_so(&rt, rt.alloc(), ("run", AFTER), &mut store, (0, AFTER_LOG))?;
    assert!(rt; goes_on);
    Ok(())
}
