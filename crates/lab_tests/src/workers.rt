//! Workers that run beside each other.
use crate::bench::{files, run};
use floor_run::Gate;
use lab_io::{MemSink, MemStore};
use lab_num::{BoardNo, NoMemory};
use std::alloc::Global;
use std::hint::spin_loop;
use std::sync::Wait;
use std::sync::atomic::{AtomicBool, AtomicU64, Ordering};
use std::test::Fail;
use std::thread::Threads;

/// Eight boards, each of which sends a letter, and takes one turn in each of two rounds.
const EIGHT: &str =
    "macro add\n\"\"\"\nmach create\nmachine LoadPlatformDescription @p.repl\ninclude @load.resc\n\"\"\"\n\
runMacro $add\nrunMacro $add\nrunMacro $add\nrunMacro $add\n\
runMacro $add\nrunMacro $add\nrunMacro $add\nrunMacro $add\nemulation RunFor \"0.0002\"\n";

const EIGHT_LOG: &str = "\
0x80000000\n0x80000000\n0x80000000\n0x80000000\n0x80000000\n0x80000000\n0x80000000\n0x80000000\n\
[0.000002] machine-0/uart: A\n[0.000002] machine-1/uart: A\n[0.000002] machine-2/uart: A\n\
[0.000002] machine-3/uart: A\n[0.000002] machine-4/uart: A\n[0.000002] machine-5/uart: A\n\
[0.000002] machine-6/uart: A\n[0.000002] machine-7/uart: A\n";

/// Two such boards, which are saved, and then take one turn.
const TWO: &str =
    "macro add\n\"\"\"\nmach create\nmachine LoadPlatformDescription @p.repl\ninclude @load.resc\n\"\"\"\n\
runMacro $add\nrunMacro $add\nSave @x\nemulation RunFor \"0.0001\"\n";

const TWO_LOG: &str = "0x80000000\n0x80000000\n\
[0.000002] machine-0/uart: A\n[0.000002] machine-1/uart: A\n";

/// The same turn, once they are taken back.
const TAKEN_BACK: &str = "Load @x\nemulation RunFor \"0.0001\"\n";

const TAKEN_BACK_LOG: &str = "[0.000002] machine-0/uart: A\n[0.000002] machine-1/uart: A\n";

/// The number of workers, a script, how many boards it has, how many turns they take, and what it writes.
type Row = (&'static str, &'static str, u64, u64, &'static str);

/// The last script takes back what the one before it has saved.
static ROWS: [Row; 3] = [
    ("8", EIGHT, 8, 16, EIGHT_LOG),
    ("2", TWO, 2, 2, TWO_LOG),
    ("2", TAKEN_BACK, 2, 2, TAKEN_BACK_LOG),
];

/// A gate that holds each of so many boards until all have entered. An `enter` that has looked
/// 100,000,000 times in vain gives up, and no further one is held.
#[derive(Drop)]
struct Meeting {
    boards: u64,
    entered: AtomicU64,
    gave_up: AtomicBool,
}

impl Gate for Meeting {
    fn enter(&self, _board: BoardNo) {
        self.entered.fetch_add(1, Ordering::SeqCst);
        for _ in 0..100_000_000_u64 {
            if self.entered.load(Ordering::SeqCst) >= self.boards
                || self.gave_up.load(Ordering::SeqCst)
            {
                return;
            }
            spin_loop();
        }
        self.gave_up.store(true, Ordering::SeqCst);
    }
}

/// Whether each board of a run has a worker of its own in the first round, and the run ends as the
/// row says.
fn is_row<R: Threads + Wait + Copy + Send + Sync>(
    rt: &R,
    alloc: Global,
    store: &mut MemStore,
    row: &Row,
) -> Result<bool, NoMemory> {
    let (workers, script, boards, turns, log) = *row;
    let gate = Meeting {
        boards,
        entered: AtomicU64::new(0),
        gave_up: AtomicBool::new(false),
    };
    let words = ["run", "s.resc", "--workers", workers];
    let mut files = files(alloc, script)?;
    let mut out = MemSink::new(alloc, 4096);
    let status = run(rt, alloc, &words, &mut files, &mut out, store, &gate)?;
    let have_met = gate.entered.load(Ordering::SeqCst) == turns
        && !gate.gave_up.load(Ordering::SeqCst);
    Ok(status.number() == 0 && out.bytes() == log.as_bytes() && have_met)
}

#[test]
fn as_many_workers_are_at_work_at_once(rt: HostRuntime) -> Result<(), Fail> {
    let mut store = MemStore::new(rt.alloc());
    for row in &ROWS {
        let is_row = is_row(&rt, rt.alloc(), &mut store, row)?;
        assert!(rt; is_row, "{row:?}");
    }
    Ok(())
}
