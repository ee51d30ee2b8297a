//! A run of the program, and the number with which it ends.
ghost use Rattle.std.specs.Prelude.{◌≡◌, IfOk, OnErr, map, string_bytes};
ghost use Rattle.std.specs.Process.{exit_status};
ghost use Rattle.lab_top.specs.Headline.{exit_number};
ghost use Rattle.lab_cli.specs.Run.{IsRun, IsRunBy};

use chips::full_stock;
use floor_run::NoGate;
use lab_io::{DiskFiles, DiskStore, OutSink, Sink, Store};
use lab_num::NoMemory;
use lab_top::{Status, command_words, exit_code, run_lab};
use probe_jobs::Unwatched;
use std::alloc::Global;
use std::process::{ExitCode, Termination};
use std::rt::{Env, Files};
use std::sync::Wait;
use std::thread::Threads;

/// How the program has ended: with the status of its run, or without a run, where no memory was found
/// for its words or its devices. Only `run` makes one.
#[derive(Drop)]
pub struct Ended {
    run: Result<Status, NoMemory>,
}

impl Termination for Ended {
    fn report<R: Eprint>(self, _rt: &R) -> ExitCode
        ensures { exit_status result ≡ exit_number self.run }
    {
        ExitCode::from(exit_code(&self.run))
    }
}

/// Runs the program over the files of the machine and its standard output. Snapshots are files of the
/// working folder.
pub fn run<R: Env + Files + Print + AllocGlobal + Threads + Wait + Copy + Send + Sync>(
    rt: &R,
) -> Ended {
    let mut files = DiskFiles::new(rt);
    let mut out = OutSink::new(rt);
    let mut store = DiskStore::new(rt, rt.alloc());
    Ended {
        run: run_over(rt, &mut files, &mut out, &mut store),
    }
}

/// Runs the program by the words that it was started with, over these files, this output and this store.
fn run_over<
    R: Env + AllocGlobal + Threads + Wait + Copy + Send + Sync,
    F: lab_io::Files,
    K: Sink,
    S: Store,
>(rt: &R, files: &mut F, out: &mut K, store: &mut S) -> Result<Status, NoMemory>
    ensures ran { IfOk result (λ status. IsRun F.Files K.Sink S.Store status
        files.old files.new out.old out.new store.old store.new) }
    ensures unrun { OnErr result
        ((files.new ≡ files.old) × (out.new ≡ out.old) × (store.new ≡ store.old)) }
{
    let words = command_words(rt)?;
    run_by_words(rt, rt.alloc(), &words, files, out, store)
}

/// Runs the program by these words, on devices enough for each board that a laboratory can have.
fn run_by_words<R: Threads + Wait + Copy + Send + Sync, F: lab_io::Files, K: Sink, S: Store>(
    rt: &R,
    alloc: Global,
    words: &[String],
    files: &mut F,
    out: &mut K,
    store: &mut S,
) -> Result<Status, NoMemory>
    ensures ran { IfOk result (λ status. IsRunBy F.Files K.Sink S.Store (map string_bytes words.now) status
        files.old files.new out.old out.new store.old store.new) }
    ensures unrun { OnErr result
        ((files.new ≡ files.old) × (out.new ≡ out.old) × (store.new ≡ store.old)) }
{
    let stock = full_stock(alloc)?;
    let nobody = &mut Unwatched::new(alloc);
    Ok(run_lab(rt, alloc, words, files, out, store, stock, &NoGate, nobody))
}
