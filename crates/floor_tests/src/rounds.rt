//! Rounds of toys on threads.
use crate::gates::{Relay, Turnstile};
use crate::toy::Toy;
use crate::toys::late_toy;
use floor_core::Job;
use floor_run::{NoGate, run_round};
use lab_num::NoMemory;
use std::alloc::Global;
use std::sync::{Arc, Wait};
use std::test::Fail;
use std::thread::Threads;

#[test]
fn jobs_come_back_finished_and_in_their_order(rt: HostRuntime) -> Result<(), Fail> {
    let alloc = rt.alloc();
    let jobs = vec![in alloc;
        Toy::new(alloc, Vec::new(alloc)),
        late_toy(alloc, 1, 4)?,
        late_toy(alloc, 2, 8)?,
    ]?;
    let done = run_round(&rt, alloc, jobs, 8, &NoGate)?;
    assert_eq!(rt; done.len(), 3);
    assert_eq!(rt;
        (done[0].taken(), done[1].taken(), done[2].taken()),
        (0, 5, 9)
    );
    assert_eq!(rt; (done[0].left(), done[1].left(), done[2].left()), (0, 0, 0));
    Ok(())
}

#[test]
fn a_round_of_no_jobs_gives_none_back(rt: HostRuntime) -> Result<(), Fail> {
    for workers in 1..9_u8 {
        let none: Vec<Toy> = Vec::new(rt.alloc());
        let done = run_round(&rt, rt.alloc(), none, workers, &NoGate)?;
        assert!(rt; done.is_empty());
    }
    Ok(())
}

#[test]
fn ten_thousand_slots_are_three_turns_behind_the_gate(rt: HostRuntime) -> Result<(), Fail> {
    let alloc = rt.alloc();
    let gate = Arc::new(alloc, Turnstile::new())?;
    let toy = late_toy(alloc, 0, 9_999)?.behind(Arc::try_clone(&gate)?);
    let done = run_round(&rt, alloc, vec![in alloc; toy]?, 2, &*gate)?;
    assert_eq!(rt; done.len(), 1);
    assert_eq!(rt; (gate.entered(), gate.begun()), (3, 3));
    assert!(rt; !gate.slipped_by());
    Ok(())
}

/// How many slots each of two boards has, and how many turns these are together.
static TURNS_OF_TWO: [(usize, u64); 3] = [(3, 2), (5_000, 4), (9_000, 6)];

/// Whether two workers take all turns of two boards beside each other.
fn are_beside_each_other<R: Threads + Wait + Copy + Send + Sync>(
    rt: &R,
    alloc: Global,
    slots: usize,
    turns: u64,
) -> Result<bool, NoMemory> {
    let gate = Relay::new(turns);
    let idle = slots.saturating_sub(1);
    let jobs = vec![in alloc; late_toy(alloc, 0, idle)?, late_toy(alloc, 1, idle)?]?;
    let _done = run_round(rt, alloc, jobs, 2, &gate)?;
    Ok(gate.entered() == turns && !gate.gave_up())
}

#[test]
fn two_workers_are_at_work_to_the_end(rt: HostRuntime) -> Result<(), Fail> {
    for (slots, turns) in &TURNS_OF_TWO {
        let beside = are_beside_each_other(&rt, rt.alloc(), *slots, *turns)?;
        assert!(rt; beside);
    }
    Ok(())
}
