//! Runs of the program over files, an output and a store in memory.
use can_sja1000::Can;
use dev_core::{Device, Stock};
use floor_run::Gate;
use lab_io::{MemFiles, MemSink, MemStore};
use lab_num::NoMemory;
use lab_top::{Status, run_lab};
use probe_jobs::Unwatched;
use std::alloc::Global;
use std::sync::Wait;
use std::thread::Threads;
use test_finisher::Finisher;
use uart_16550::Uart;

/// 64 KiB of memory, a UART and a processor of one instruction a microsecond.
const PLATFORM: &[u8] = b"\
ram: Memory.MappedMemory @ sysbus 0x80000000
    size: 0x10000
uart: UART.NS16550 @ sysbus 0x10000000
cpu: CPU.RiscV32 @ sysbus
    cpuType: \"rv32im\"
    PerformanceInMips: 1
";

/// lui x5, 0x10000; addi x6, x0, 65; sb x6, 0(x5); jal x0, 0: sends `A` in slot 2
const SENDS: &[u8] = b"\xB7\x02\x00\x10\x13\x03\x10\x04\x23\x80\x62\x00\x6F\x00\x00\x00";

/// lui x5, 0x90000; lw x6, 0(x5); jalr x0, 0(x5): reads where nothing is, and jumps there
const STRAYS: &[u8] = b"\xB7\x02\x00\x90\x03\xA3\x02\x00\x67\x80\x02\x00";

/// lui x5, 0x90000; lw x6, 0(x5); jal x0, -4: reads where nothing is in each second slot
const POLLS: &[u8] = b"\xB7\x02\x00\x90\x03\xA3\x02\x00\x6F\xF0\xDF\xFF";

/// The files that scripts name.
static FILES: [(&str, &[u8]); 6] = [
    ("p.repl", PLATFORM),
    ("using.repl", b"using \"p.repl\"\n"),
    ("a.bin", SENDS),
    ("hole.bin", STRAYS),
    ("polls.bin", POLLS),
    (
        "load.resc",
        b"sysbus LoadBinary @a.bin 0x80000000\ncpu PC 0x80000000\ncpu PC\nshowAnalyzer uart\n",
    ),
];

fn put_all(files: &mut MemFiles, rows: &[(&str, &[u8])]) -> Result<(), NoMemory> {
    for (name, bytes) in rows {
        files.put(name, bytes)?;
    }
    Ok(())
}

/// The files, of which `s.resc` is this script.
pub fn files(alloc: Global, script: &str) -> Result<MemFiles, NoMemory> {
    let mut files = MemFiles::new(alloc);
    put_all(&mut files, &FILES)?;
    files.put("s.resc", script.as_bytes())?;
    Ok(files)
}

pub fn words_of(alloc: Global, words: &[&str]) -> Result<Vec<String>, NoMemory> {
    let mut list = Vec::new(alloc);
    for word in words {
        list.push(String::from_str(alloc, word)?)?;
    }
    Ok(list)
}

/// A run by these words on the devices of a full stock: how it ends.
fn run_on<R: Threads + Wait + Copy + Send + Sync, D: Device + Send, G: Gate>(
    rt: &R,
    alloc: Global,
    words: &[&str],
    files: &mut MemFiles,
    out: &mut MemSink,
    store: &mut MemStore,
    stock: Stock<D>,
    gate: &G,
) -> Result<Status, NoMemory> {
    if !stock.is_full() {
        return Err(NoMemory);
    }
    let words = words_of(alloc, words)?;
    let nobody = &mut Unwatched::new(alloc);
    Ok(run_lab(rt, alloc, &words, files, out, store, stock, gate, nobody))
}

/// A run by these words, on devices enough for every laboratory: how it ends.
pub fn run<R: Threads + Wait + Copy + Send + Sync, G: Gate>(
    rt: &R,
    alloc: Global,
    words: &[&str],
    files: &mut MemFiles,
    out: &mut MemSink,
    store: &mut MemStore,
    gate: &G,
) -> Result<Status, NoMemory> {
    let mut uarts: Vec<Box<dyn Device + Send>> = Vec::new(alloc);
    for _ in 0..64 {
        uarts.push(Box::new(alloc, Uart::new())?)?;
    }
    let mut cans: Vec<Box<dyn Device + Send>> = Vec::new(alloc);
    for _ in 0..64 {
        cans.push(Box::new(alloc, Can::new())?)?;
    }
    let mut finishers: Vec<Box<dyn Device + Send>> = Vec::new(alloc);
    for _ in 0..16 {
        finishers.push(Box::new(alloc, Finisher::new())?)?;
    }
    let stock = Stock {
        uarts,
        cans,
        finishers,
    };
    run_on(rt, alloc, words, files, out, store, stock, gate)
}
