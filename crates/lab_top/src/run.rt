//! The whole program, from the command words to the status.
ghost use Rattle.std.specs.Prelude.{◌≡◌, ◌≢◌, ℕ, suc, ◌≤◌, ◌^◌, [], false, length, map, string_bytes};
ghost use Rattle.std.specs.Prelude.{Err, IfSome, IfOk, IfErr, Result};
ghost use Rattle.std.specs.Option.{ForSome};
ghost use Rattle.dev_core.specs.Stock.{IsFull};
ghost use Rattle.lab_gen.specs.Summary.{summary_of};
ghost use Rattle.lab_io.specs.Asked.{AskedNames};
ghost use Rattle.lab_io.specs.Frame.{OnlyReads, OnlyStores, OnlyWrites};
ghost use Rattle.lab_io.specs.Held.{Held};
ghost use Rattle.lab_io.specs.Known.{Rose};
ghost use Rattle.lab_state.specs.Names.{names};
ghost use Rattle.lab_state.specs.Run.{run};
ghost use Rattle.log_text.specs.Log.{rest};
ghost use Rattle.monitor.specs.State.{started};
ghost use Rattle.monitor.specs.Step.{Running, TakesSome, line_in};
ghost use Rattle.lab_top.specs.Request.{request_of};
ghost use Rattle.lab_top.specs.Transcript.{Further, Transcript, transcript, run_of, commands_of, from, loading};
ghost use Rattle.lab_top.specs.Transcript.{Script, Usage, Done};
ghost use Rattle.lab_top.specs.Headline.{Course, IsWhole, WritesPart, WritesUsage, AsksPart, IsUncut, outside};
ghost use Rattle.lab_top.specs.Headline.{Outside as Seen, IsUsageBy, IsNoUsage, OnRefused, final};
ghost use Rattle.lab_top.specs.Inner.Course.{IsEnd, IsTaken};
ghost use Rattle.lab_top.specs.Inner.Lent.{ForHeld, Goes, OnlyUses, told_of};
ghost use Rattle.lab_top.specs.Inner.Stored.{IsStored, IsTried, IsUnspent, lent, store_of};

use crate::outside::Outside;
use crate::script::{Opened, open};
use crate::snapshots::{SnapshotLine, StoreHalt, fetch, keep, restore};
use crate::status::Status;
use crate::words::{Asked, ScriptRun, read_request};
use board_job::BoxedBoardJob;
use dev_core::{Device, Stock};
use floor_run::Gate;
use lab_arguments::{UsageCause, WordsFault, usage_line};
use lab_gen::generate;
use lab_io::{Files, Sink, Store, write_whole};
use lab_num::Text;
use monitor::{Cause, Monitor, Progress, ScriptFault};
use probe_jobs::Watcher;
use std::alloc::Global;
use std::sync::Wait;
use std::thread::Threads;

/// How many lines a run takes at most: 100,000 commands, and one line that ends it.
const MOST_STEPS: u32 = 100_001;

/// Runs the program for its command words, reading from `files`, writing to `out`, and keeping snapshots in
/// `store`. At most as many workers as the words name run the boards. Where several run several boards, each
/// enters the gate before each turn. A watcher who wants to be shown the boards of a script has one worker run them.
/// What is promised holds of every watcher, who changes nothing of it.
pub fn run_lab<
    R: Threads + Wait + Copy + Send + Sync,
    D: Device + Send,
    F: Files,
    K: Sink,
    S: Store,
    G: Gate,
    W: Watcher<BoxedBoardJob<D>>,
>(
    rt: &R,
    alloc: Global,
    words: &[String],
    files: &mut F,
    out: &mut K,
    store: &mut S,
    stock: Stock<D>,
    gate: &G,
    watcher: &mut W,
) -> Status
    requires { IsFull D.meaning stock }

    // Where nothing cut the run short, it ended, wrote and kept as its transcript says.
    ensures outcome { IfSome (F.held files.old) (λ held. IfSome (S.kept store.old) (λ kept.
        IsWhole (transcript (map string_bytes words.now) held kept) result
        (outside F.Files K.Sink S.Store files.old out.old store.old)
        (outside F.Files K.Sink S.Store files.new out.new store.new))) }

    // Else it wrote what the transcript begins with and made the calls on the store that it begins with,
    // and after a failed read or a failed call on the store all that comes before it.
    ensures prefix { IfSome (F.held files.old) (λ held. IfSome (S.kept store.old) (λ kept.
        WritesPart (transcript (map string_bytes words.now) held kept) kept result
        (outside F.Files K.Sink S.Store files.old out.old store.old)
        (outside F.Files K.Sink S.Store files.new out.new store.new))) }

    // What it has written, read and called for ends at one place of the transcript, and where nothing cut
    // it short at its end.
    ensures course { IfSome (F.held files.old) (λ held. IfSome (S.kept store.old) (λ kept.
        Course (transcript (map string_bytes words.now) held kept) kept result
        (outside F.Files K.Sink S.Store files.old out.old store.old)
        (outside F.Files K.Sink S.Store files.new out.new store.new))) }

    // It asks for no name that the transcript does not.
    ensures asked { IfSome (F.held files.old) (λ held. IfSome (S.kept store.old) (λ kept.
        AsksPart (transcript (map string_bytes words.now) held kept)
        (F.asked files.old) (F.asked files.new))) }

    // Where nothing failed, nothing but want of memory cuts it short.
    ensures complete { ¬ (Rose (F.faults files.old) (F.faults files.new)) →
        ¬ (Rose (K.faults out.old) (K.faults out.new)) →
        ¬ (Rose (S.faults store.old) (S.faults store.new)) →
        IsUncut result }

    // The words alone say whether they are refused. Refused ones write the usage line or its
    // beginning, whatever is told of the files and the store, ask for no name, and leave the store alone.
    ensures usage { IsUsageBy (request_of (map string_bytes words.now)) result }
    ensures refused { OnRefused (request_of (map string_bytes words.now)) (WritesUsage result
        (outside F.Files K.Sink S.Store files.old out.old store.old)
        (outside F.Files K.Sink S.Store files.new out.new store.new)) }

    // Only a fault that was counted cuts it short, or want of memory. What the files hold stays.
    ensures files { OnlyReads F.Files (result ≡ Status.Unread) files.old files.new }
    ensures output { OnlyWrites K.Sink (result ≡ Status.Unwritten) out.old out.new }
    ensures store { OnlyStores S.Store (result ≡ Status.Unstored) store.old store.new }
{
    let outside = &mut Outside { files, out, store };
    run_words(rt, alloc, words, outside, stock, gate, watcher)
}

/// Does what the words ask for.
fn run_words<
    R: Threads + Wait + Copy + Send + Sync,
    D: Device + Send,
    F: Files,
    K: Sink,
    S: Store,
    G: Gate,
    W: Watcher<BoxedBoardJob<D>>,
>(
    rt: &R,
    alloc: Global,
    words: &[String],
    outside: &mut Outside<'_, '_, '_, F, K, S>,
    stock: Stock<D>,
    gate: &G,
    watcher: &mut W,
) -> Status
    requires { IsFull D.meaning stock }
    ensures course { Goes F.Files K.Sink S.Store (transcript (map string_bytes words.now))
        result outside.old outside.new }
    ensures usage { IsUsageBy (request_of (map string_bytes words.now)) result }
    ensures refused { OnRefused (request_of (map string_bytes words.now)) (WritesUsage result
        (told_of F.Files K.Sink S.Store outside.old) (told_of F.Files K.Sink S.Store outside.new)) }
    ensures outside { OnlyUses F.Files K.Sink S.Store (λ status. result ≡ status) outside.old outside.new }
{
    match read_request(alloc, words) {
        Ok(Asked::Script(request)) => {
            run_file(rt, alloc, request, outside, stock, gate, watcher)
        }
        Ok(
            Asked::Generated {
                seed,
                boards,
                workers,
            },
        ) => run_generated(rt, alloc, seed, boards, workers, outside.out, stock, gate),
        Err(WordsFault::Usage(cause)) => refuse_words(cause, outside.out),
        Err(WordsFault::Memory) => Status::Memory,
    }
}

/// Writes the line that says how the program is called.
fn refuse_words<K: Sink>(cause: UsageCause, out: &mut K) -> Status
    ensures course { IsEnd [] (Usage cause) result (K.written out.old) (K.written out.new) }
    ensures usage { IfSome (final result) (λ outcome. outcome ≡ Usage cause) }
    ensures never { (result ≢ Status.Unread) × (result ≢ Status.Unstored) }
    ensures output { OnlyWrites K.Sink (result ≡ Status.Unwritten) out.old out.new }
{
    match write_whole(out, usage_line().as_bytes()) {
        Ok(()) => Status::Usage(cause),
        Err(fault) => Status::from(fault),
    }
}

/// Runs the laboratory of a seed and writes its summary.
fn run_generated<R: Threads + Wait + Copy + Send + Sync, D: Device + Send, K: Sink, G: Gate>(
    rt: &R,
    alloc: Global,
    seed: u64,
    boards: u8,
    workers: u8,
    out: &mut K,
    stock: Stock<D>,
    gate: &G,
) -> Status
    requires some { 1 ≤ boards }
    requires few { boards ≤ 16 }
    requires workers { (1 ≤ workers) × (workers ≤ 8) }
    requires full { IsFull D.meaning stock }
    ensures course { IsEnd (summary_of run seed boards) Done
        result (K.written out.old) (K.written out.new) }
    ensures usage { IsNoUsage result }
    ensures never { (result ≢ Status.Unread) × (result ≢ Status.Unstored) }
    ensures output { OnlyWrites K.Sink (result ≡ Status.Unwritten) out.old out.new }
{
    let Ok(text) = generate(rt, alloc, seed, boards, workers, stock, gate) else {
        return Status::Memory;
    };
    match write_whole(out, &text) {
        Ok(()) => Status::Done,
        Err(fault) => Status::from(fault),
    }
}

/// Reads a script and runs it.
fn run_file<
    R: Threads + Wait + Copy + Send + Sync,
    D: Device + Send,
    F: Files,
    K: Sink,
    S: Store,
    G: Gate,
    W: Watcher<BoxedBoardJob<D>>,
>(
    rt: &R,
    alloc: Global,
    request: ScriptRun,
    outside: &mut Outside<'_, '_, '_, F, K, S>,
    stock: Stock<D>,
    gate: &G,
    watcher: &mut W,
) -> Status
    requires full { IsFull D.meaning stock }
    requires some_worker { 1 ≤ request.setting.workers }
    requires few_workers { request.setting.workers ≤ 8 }
    ensures course { Goes F.Files K.Sink S.Store
        (λ held kept. run_of run held kept request.script request.setting)
        result outside.old outside.new }
    ensures usage { IsNoUsage result }
    ensures outside { OnlyUses F.Files K.Sink S.Store (λ status. result ≡ status) outside.old outside.new }
{
    match open(alloc, outside.files, request.script.as_str()) {
        Opened::Text(text) => {
            run_script(rt, alloc, request, text, outside, stock, gate, watcher)
        }
        Opened::Refused(fault) => tell(alloc, fault, outside.out),
        Opened::Unread => Status::Unread,
        Opened::Memory => Status::Memory,
    }
}

/// Runs a script with this text, in a laboratory without boards.
fn run_script<
    R: Threads + Wait + Copy + Send + Sync,
    D: Device + Send,
    F: Files,
    K: Sink,
    S: Store,
    G: Gate,
    W: Watcher<BoxedBoardJob<D>>,
>(
    rt: &R,
    alloc: Global,
    request: ScriptRun,
    text: String,
    outside: &mut Outside<'_, '_, '_, F, K, S>,
    stock: Stock<D>,
    gate: &G,
    watcher: &mut W,
) -> Status
    requires full { IsFull D.meaning stock }
    requires short { length (string_bytes text) ≤ 2 ^ 24 }
    requires some_worker { 1 ≤ request.setting.workers }
    requires few_workers { request.setting.workers ≤ 8 }
    ensures course { Goes F.Files K.Sink S.Store
        (λ held kept. commands_of run held kept (started request.script (string_bytes text) request.setting))
        result outside.old outside.new }
    ensures usage { IsNoUsage result }
    ensures outside { OnlyUses F.Files K.Sink S.Store (λ status. result ≡ status) outside.old outside.new }
{
    let ScriptRun { script, setting } = request;
    let Ok(monitor) = Monitor::new(alloc, script.as_str(), text, stock, setting) else {
        return Status::Memory;
    };
    take_commands(rt, alloc, monitor, outside, gate, watcher)
}

/// Takes the commands of a script to its end, the first fault or the first failure.
fn take_commands<
    R: Threads + Wait + Copy + Send + Sync,
    D: Device + Send,
    F: Files,
    K: Sink,
    S: Store,
    G: Gate,
    W: Watcher<BoxedBoardJob<D>>,
>(
    rt: &R,
    alloc: Global,
    mut monitor: Monitor<D>,
    outside: &mut Outside<'_, '_, '_, F, K, S>,
    gate: &G,
    watcher: &mut W,
) -> Status
    requires goes_on { monitor.ended ≡ false }
    requires few { monitor.state.flow.kept.taken ≤ 100000 }
    ensures course { Goes F.Files K.Sink S.Store (λ held kept. commands_of run held kept monitor.state)
        result outside.old outside.new }
    ensures usage { IsNoUsage result }
    ensures outside { OnlyUses F.Files K.Sink S.Store (λ status. result ≡ status) outside.old outside.new }
{
    'commands: for _turn in 0..MOST_STEPS {
        match take_command(rt, alloc, monitor, outside, gate, watcher) {
            Ok(next) => monitor = next,
            Err(status) => return status,
        }
    }
    unreachable!()
}

/// Takes one command of a script, and writes what it prints. An `Err` is how the run ends, where it does not go on.
fn take_command<
    R: Threads + Wait + Copy + Send + Sync,
    D: Device + Send,
    F: Files,
    K: Sink,
    S: Store,
    G: Gate,
    W: Watcher<BoxedBoardJob<D>>,
>(
    rt: &R,
    alloc: Global,
    mut monitor: Monitor<D>,
    outside: &mut Outside<'_, '_, '_, F, K, S>,
    gate: &G,
    watcher: &mut W,
) -> Result<Monitor<D>, Status>
    requires { monitor.ended ≡ false }
    ensures course { ForHeld F.Files S.Store outside.old (λ held kept. (more : ℕ) →
        IsTaken (from (suc more) run held kept monitor.state) kept (from more run held)
        (told_of F.Files K.Sink S.Store outside.old) (told_of F.Files K.Sink S.Store outside.new) result) }
    ensures next { IfOk result (λ next. (next.ended ≡ false) × (next.workers ≡ monitor.workers)
        × TakesSome monitor.state next.state) }
    ensures usage { IfErr result IsNoUsage }
    ensures outside { OnlyUses F.Files K.Sink S.Store (λ status. result ≡ Err status) outside.old outside.new }
{
    match try_command(
        rt,
        alloc,
        &mut monitor,
        outside.files,
        outside.out,
        outside.store,
        gate,
        watcher,
    ) {
        Ok(None) => Ok(monitor),
        Ok(Some(line)) => take_back(alloc, monitor, outside.store, line, outside.out),
        Err(status) => Err(status),
    }
}

/// Takes one command of a script, and writes what it prints. A snapshot that it asks for is left to the caller, since
/// it takes the place of the monitor's laboratory.
fn try_command<
    R: Threads + Wait + Copy + Send + Sync,
    D: Device + Send,
    F: Files,
    K: Sink,
    S: Store,
    G: Gate,
    W: Watcher<BoxedBoardJob<D>>,
>(
    rt: &R,
    alloc: Global,
    monitor: &mut Monitor<D>,
    files: &mut F,
    out: &mut K,
    store: &mut S,
    gate: &G,
    watcher: &mut W,
) -> Result<Option<SnapshotLine>, Status>
    requires { monitor.old.ended ≡ false }
    ensures course { ForSome (F.held files.old) (λ held. ForSome (S.kept store.old) (λ kept. (more : ℕ) →
        IsTried (from (suc more) run held kept monitor.old.state) kept (from more run held)
        (outside F.Files K.Sink S.Store files.old out.old store.old)
        (outside F.Files K.Sink S.Store files.new out.new store.new) monitor.new result)) }
    ensures next { IfOk result (λ line. (monitor.new.ended ≡ false) × (monitor.new.workers ≡ monitor.old.workers)
        × TakesSome monitor.old.state monitor.new.state) }
    ensures usage { IfErr result IsNoUsage }
    ensures files { OnlyReads F.Files (result ≡ Err Status.Unread) files.old files.new }
    ensures output { OnlyWrites K.Sink (result ≡ Err Status.Unwritten) out.old out.new }
    ensures store { OnlyStores S.Store (result ≡ Err Status.Unstored) store.old store.new }
{
    match monitor.step_to(rt, files, out, gate, watcher) {
        Progress::Done => Ok(None),
        Progress::Cut(fault) => Err(Status::from(fault)),
        Progress::Save { name, file, line } => match keep(alloc, monitor, store, name.as_str()) {
            Ok(()) => Ok(None),
            Err(halt) => Err(stop_by(alloc, monitor, halt, file, line, out)),
        },
        Progress::Load { name, file, line } => Ok(Some(SnapshotLine { name, file, line })),
        Progress::End => Err(stop(monitor, out)),
        Progress::Fault(fault) => Err(stop_at(alloc, monitor, fault, out)),
        Progress::Unread => Err(Status::Unread),
        Progress::Memory => Err(Status::Memory),
    }
}

/// Takes the laboratory and its open lines back from the name that a line asks for, if nothing was made in the
/// monitor's laboratory.
fn take_back<D: Device, K: Sink, S: Store>(
    alloc: Global,
    mut monitor: Monitor<D>,
    store: &mut S,
    line: SnapshotLine,
    out: &mut K,
) -> Result<Monitor<D>, Status>
    requires { monitor.ended ≡ false }
    ensures course { ForSome (S.kept store.old) (λ kept.
        (all : Transcript) (further : Further) (old : Seen) (asked : AskedNames) →
        ((new : Seen) (stored : Result Running (StoreHalt Running)) →
        IsStored (loading further kept line.name (line_in line.file line.line) monitor.state) kept further
        (line_in line.file line.line) (store_of S.Store (K.written out.old) asked store.old) new stored →
        IsStored all kept further (line_in line.file line.line) old new stored) →
        IsTaken all kept further old (store_of S.Store (K.written out.new) asked store.new) result) }
    ensures next { IfOk result (λ next. (next.ended ≡ false) × (next.workers ≡ monitor.workers)
        × (next.state.flow ≡ monitor.state.flow)) }
    ensures usage { IfErr result IsNoUsage }
    ensures never { result ≢ Err Status.Unread }
    ensures output { OnlyWrites K.Sink (result ≡ Err Status.Unwritten) out.old out.new }
    ensures store { OnlyStores S.Store (result ≡ Err Status.Unstored) store.old store.new }
{
    let SnapshotLine { name, file, line } = line;
    let mut bytes = Vec::new(alloc);
    match fetch(&monitor, store, name.as_str(), &mut bytes) {
        Ok(()) => {
            let stored = restore(alloc, monitor, &bytes);
            go_on(alloc, stored, file, line, out)
        }
        Err(halt) => Err(stop_by(alloc, &mut monitor, halt, file, line, out)),
    }
}

/// Ends the run after a command for the store, which stands in this line of this file.
fn stop_by<D: Device, K: Sink>(
    alloc: Global,
    monitor: &mut Monitor<D>,
    halt: StoreHalt<()>,
    file: Text,
    line: u32,
    out: &mut K,
) -> Status
    requires { monitor.old.spent ≡ false }
    ensures course { (all : Transcript) (kept : Held) (further : Further) (old mid : Seen) →
        IsStored all kept further (line_in file line) old (record mid { written = K.written out.old })
        (lent monitor.old (Err halt)) →
        Course all kept result old (record mid { written = K.written out.new }) }
    ensures usage { IsNoUsage result }
    ensures never { result ≢ Status.Unread }
    ensures unstored { result ≡ Status.Unstored → halt ≡ StoreHalt.Unstored }
    ensures output { OnlyWrites K.Sink (result ≡ Status.Unwritten) out.old out.new }
{
    match halt {
        StoreHalt::Refused(cause, ()) => {
            let cause = Cause::Script(cause);
            stop_at(alloc, monitor, ScriptFault { file, line, cause }, out)
        }
        StoreHalt::Unstored => Status::Unstored,
        StoreHalt::Memory => Status::Memory,
    }
}

/// Goes on after a command for the store, which stands in this line of this file, or ends the run.
fn go_on<D: Device, K: Sink>(
    alloc: Global,
    stored: Result<Monitor<D>, StoreHalt<Monitor<D>>>,
    file: Text,
    line: u32,
    out: &mut K,
) -> Result<Monitor<D>, Status>
    requires { IsUnspent stored }
    ensures course { (all : Transcript) (kept : Held) (further : Further) (old mid : Seen) →
        IsStored all kept further (line_in file line) old (record mid { written = K.written out.old }) stored →
        IsTaken all kept further old (record mid { written = K.written out.new }) result }
    ensures same { IfOk result (λ monitor. stored ≡ Ok monitor) }
    ensures usage { IfErr result IsNoUsage }
    ensures never { result ≢ Err Status.Unread }
    ensures unstored { result ≡ Err Status.Unstored → stored ≡ Err StoreHalt.Unstored }
    ensures output { OnlyWrites K.Sink (result ≡ Err Status.Unwritten) out.old out.new }
{
    match stored {
        Ok(monitor) => Ok(monitor),
        Err(StoreHalt::Refused(cause, mut monitor)) => {
            let cause = Cause::Script(cause);
            Err(stop_at(alloc, &mut monitor, ScriptFault { file, line, cause }, out))
        }
        Err(StoreHalt::Unstored) => Err(Status::Unstored),
        Err(StoreHalt::Memory) => Err(Status::Memory),
    }
}

/// Writes what is left of the lines where a script has ended.
fn stop<D: Device, K: Sink>(monitor: &mut Monitor<D>, out: &mut K) -> Status
    requires { monitor.old.spent ≡ false }
    ensures course { IsEnd (rest (names monitor.old.state.lab) monitor.old.state.lines) Done
        result (K.written out.old) (K.written out.new) }
    ensures usage { IsNoUsage result }
    ensures never { (result ≢ Status.Unread) × (result ≢ Status.Unstored) }
    ensures output { OnlyWrites K.Sink (result ≡ Status.Unwritten) out.old out.new }
{
    let Ok(text) = monitor.rest() else {
        return Status::Memory;
    };
    match write_whole(out, &text) {
        Ok(()) => Status::Done,
        Err(fault) => Status::from(fault),
    }
}

/// Writes what is left of the lines where a line of a script is refused, and then says so.
fn stop_at<D: Device, K: Sink>(
    alloc: Global,
    monitor: &mut Monitor<D>,
    fault: ScriptFault,
    out: &mut K,
) -> Status
    requires { monitor.old.spent ≡ false }
    ensures course { IsEnd (rest (names monitor.old.state.lab) monitor.old.state.lines)
        (Script fault) result (K.written out.old) (K.written out.new) }
    ensures usage { IsNoUsage result }
    ensures never { (result ≢ Status.Unread) × (result ≢ Status.Unstored) }
    ensures output { OnlyWrites K.Sink (result ≡ Status.Unwritten) out.old out.new }
{
    let Ok(text) = monitor.rest() else {
        return Status::Memory;
    };
    if let Err(fault) = write_whole(out, &text) {
        return Status::from(fault);
    }
    tell(alloc, fault, out)
}

/// Writes the line of a fault.
fn tell<K: Sink>(alloc: Global, fault: ScriptFault, out: &mut K) -> Status
    ensures course { IsEnd [] (Script fault) result (K.written out.old) (K.written out.new) }
    ensures usage { IsNoUsage result }
    ensures never { (result ≢ Status.Unread) × (result ≢ Status.Unstored) }
    ensures output { OnlyWrites K.Sink (result ≡ Status.Unwritten) out.old out.new }
{
    let Ok(line) = format!(in alloc; "{fault}\n") else {
        return Status::Memory;
    };
    match write_whole(out, line.as_bytes()) {
        Ok(()) => Status::Script(fault),
        Err(fault) => Status::from(fault),
    }
}
