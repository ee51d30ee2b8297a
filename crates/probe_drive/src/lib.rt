//! The jobs of a round, run by one thread in order of time, with a watcher who is shown them before each slot.
#![tactic(auto)]

ghost use Rattle.std.specs.Prelude.{◌≡◌, ◌+◌, ◌<◌, ◌≤◌, ℕ, [], ◌++◌, length, map, min, slice_get, Some, set};
ghost use Rattle.std.specs.Prelude.{All, IfOk, MatchOption, OnOk};
ghost use Rattle.std.specs.List.{AllZip};
ghost use Rattle.floor_core.specs.Job.{left, made};
ghost use Rattle.floor_core.specs.Result.{finished};
ghost use Rattle.probe_jobs.specs.Course.{After, AreIdle, OneTakes, Partly};
ghost use Rattle.probe_jobs.specs.Next.{IsNext, NoneBefore, NoneLeft};
ghost use Rattle.probe_jobs.specs.Told.{Follow, first};

use floor_core::{Job, Turn, laws};
use lab_num::NoMemory;
use probe_jobs::{Slot, Timed, Watcher};
use std::sync::Wait;
use std::thread::Threads;

/// Which slot is next of those of the jobs up to and with the one in place i, where `best` is next of those before it.
fn next_of<J: Timed>(jobs: &[J], i: usize, best: Option<Slot>) -> Option<Slot>
    requires within { i < length jobs.now }
    requires best { MatchOption best (NoneLeft J.meaning jobs.now i)
        (λ slot. IsNext J.meaning J.time slot jobs.now i) }
    ensures { MatchOption result (NoneLeft J.meaning jobs.now (i + 1))
        (λ slot. IsNext J.meaning J.time slot jobs.now (i + 1)) }
{
    let job = &jobs[i];
    if job.left() == 0 {
        return best;
    }
    let at = job.time();
    match best {
        Some(slot) if slot.at <= at => best,
        _ => Some(Slot { at, place: i }),
    }
}

/// The slot that comes next, if any job has slots left.
fn earliest<J: Timed>(jobs: &[J]) -> Option<Slot>
    ensures { MatchOption result (NoneLeft J.meaning jobs.now (length jobs.now))
        (λ slot. IsNext J.meaning J.time slot jobs.now (length jobs.now)) }
{
    let mut best = None;
    'places: for i in 0..jobs.len() {
        best = next_of(jobs, i, best);
    }
    best
}

/// Has a job take its next slot, if any is left, and send its posts.
fn take_slot<R: Threads + Wait + Copy + Send + Sync, J: Job>(
    rt: &R,
    job: &mut J,
) -> Result<(), NoMemory>
    ensures { OnOk result (After J.meaning J.sent J.state_after job.old (min 1 (left (J.meaning job.old))) job.new) }
{
    let Turn::Used(_) = job.turn(1) else {
        return Err(NoMemory);
    };
    if job.send_out(rt) {
        Ok(())
    } else {
        Err(NoMemory)
    }
}

/// Has the job in this place pass over the idle slots that come next, as far as it knows them, and says how many.
fn pass_idle<J: Timed>(jobs: &mut Vec<J>, place: usize) -> u64
    requires within { place < length jobs.old.items }
    requires sent { (job : J) → slice_get jobs.old.items place ≡ Some job → (J.meaning job).unsent ≡ [] }
    ensures none { result ≡ 0 → jobs.new.items ≡ jobs.old.items }
    ensures idle { (job : J) → slice_get jobs.old.items place ≡ Some job → 0 < result →
        AreIdle J.state_after J.idled (J.meaning job) result }
    ensures passed { 0 < result → OneTakes J.meaning J.sent J.state_after place result jobs.old.items jobs.new.items }
{
    jobs[place].pass(u64::MAX)
}

/// Has the job whose slot is next pass over idle slots and tells the watcher of them, or shows the jobs to the watcher
/// and has that job take its slot.
fn take_next<R: Threads + Wait + Copy + Send + Sync, J: Timed, W: Watcher<J>>(
    rt: &R,
    jobs: &mut Vec<J>,
    slot: Slot,
    watcher: &mut W,
) -> Result<(), NoMemory>
    requires next { IsNext J.meaning J.time slot jobs.old.items (length jobs.old.items) }
    requires rising { NoneBefore J.meaning J.time (W.told watcher.old).last jobs.old.items (length jobs.old.items) }
    requires follow { Follow J.meaning J.sent J.state_after (W.told watcher.old) jobs.old.items }
    requires stand { AllZip (Partly J.meaning J.sent J.state_after) (W.told watcher.old).began jobs.old.items }
    ensures began { OnOk result ((W.told watcher.new).began ≡ (W.told watcher.old).began) }
    ensures last { OnOk result ((W.told watcher.new).last ≡ slot) }
    ensures follow { OnOk result (Follow J.meaning J.sent J.state_after (W.told watcher.new) jobs.new.items) }
    ensures taken { OnOk result ((n : ℕ) × (0 < n) ×
        OneTakes J.meaning J.sent J.state_after slot.place n jobs.old.items jobs.new.items) }
{
    laws::turns_add_up::<J>();
    let passed = pass_idle(jobs, slot.place);
    if passed > 0 {
        watcher.passed(slot, passed, jobs);
        return Ok(());
    }
    watcher.before(slot, jobs);
    take_slot(rt, &mut jobs[slot.place])?;
    Ok(())
}

/// Has the jobs take all their slots in order of time, and tells the watcher of each.
fn take_all<R: Threads + Wait + Copy + Send + Sync, J: Timed, W: Watcher<J>>(
    rt: &R,
    jobs: &mut Vec<J>,
    watcher: &mut W,
) -> Result<(), NoMemory>
    requires told { W.told watcher.old ≡ first jobs.old.items }
    requires sent { All (λ job. (J.meaning job).unsent ≡ []) jobs.old.items }
    ensures began { OnOk result ((W.told watcher.new).began ≡ jobs.old.items) }
    ensures follow { OnOk result (Follow J.meaning J.sent J.state_after (W.told watcher.new) jobs.new.items) }
    ensures jobs { OnOk result (map J.meaning jobs.new.items
        ≡ map (λ job. finished J.state_after (J.meaning job)) jobs.old.items) }
    ensures posts { OnOk result (map J.sent jobs.new.items
        ≡ map (λ job. J.sent job ++ made (J.meaning job) (left (J.meaning job))) jobs.old.items) }
{
    laws::turns_add_up::<J>();
    'slots: while let Some(slot) = earliest(jobs) {
        take_next(rt, jobs, slot, watcher)?;
    }
    Ok(())
}

/// Runs every job to its end and hands the jobs back in their order, with all their posts sent. They take their slots
/// in order of time, that of a lower place first where two lie at one time. The watcher is shown the jobs before each
/// slot, or told of the idle ones that one has passed over. At `Err` the jobs are lost.
pub fn run_in_order<R: Threads + Wait + Copy + Send + Sync, J: Timed, W: Watcher<J>>(
    rt: &R,
    mut jobs: Vec<J>,
    watcher: &mut W,
) -> Result<Vec<J>, NoMemory>
    requires { All (λ job. (J.meaning job).unsent ≡ []) jobs.items }
    ensures began { OnOk result ((W.told watcher.new).began ≡ jobs.items) }
    ensures follow { IfOk result (λ done. Follow J.meaning J.sent J.state_after (W.told watcher.new) done.items) }
    ensures jobs { IfOk result (λ done.
        map J.meaning done.items ≡ map (λ job. finished J.state_after (J.meaning job)) jobs.items) }
    ensures posts { IfOk result (λ done.
        map J.sent done.items ≡ map (λ job. J.sent job ++ made (J.meaning job) (left (J.meaning job))) jobs.items) }
{
    watcher.begin(&jobs);
    take_all(rt, &mut jobs, watcher)?;
    Ok(jobs)
}
