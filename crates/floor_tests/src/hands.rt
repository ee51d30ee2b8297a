//! Boards that change hands.
ghost use Rattle.std.specs.Prelude.{◌≡◌, [], All, IfSome, length};
ghost use Rattle.floor_run.specs.Turns.{IsTurned};

use crate::toy::Toy;
use crate::toys::late_toy;
use floor_core::{Job, Turn};
use floor_run::Bench;
use lab_num::BoardNo;
use std::alloc::Global;
use std::process::Abort;
use std::sync::Wait;
use std::test::Fail;
use std::thread::Threads;

/// The job after a turn, with its posts sent.
fn turned<R: Threads + Wait + Copy + Send + Sync, J: Job>(rt: &R, mut job: J) -> Option<J>
    ensures { IfSome result (λ turned. IsTurned J.meaning J.sent J.state_after job turned) }
{
    match job.turn(4096) {
        Turn::Used(_) => {}
        Turn::Starved(_) => return None,
    }
    if job.send_out(rt) { Some(job) } else { None }
}

/// Two hands over three boards, with no slots, with fewer than a turn has, and with 904 more than a turn has.
fn two_hands<R: Threads + Wait + Abort + Copy + Send + Sync, J: Job>(
    rt: &R,
    alloc: Global,
    jobs: Vec<J>,
) -> Result<(), Fail>
    requires three { length jobs.items ≡ 3 }
    requires sent { All (λ job. (J.meaning job).unsent ≡ []) jobs.items }
{
    let (bench, mut one) = Bench::open(alloc, jobs)?;
    let mut other = bench.split(&mut one)?;
    assert!(rt; bench.claim(&mut one, BoardNo(0)).is_none());
    let first = bench.claim(&mut one, BoardNo(1)).ok_or("board 1")?;
    assert!(rt; bench.claim(&mut other, BoardNo(1)).is_none());
    let second = bench.claim(&mut other, BoardNo(2)).ok_or("board 2")?;
    bench.report(&mut one, turned(rt, first).ok_or("memory")?);
    bench.report(&mut other, turned(rt, second).ok_or("memory")?);
    assert!(rt; bench.claim(&mut one, BoardNo(1)).is_none());
    let last = bench.claim(&mut one, BoardNo(2)).ok_or("board 2 again")?;
    assert_eq!(rt; last.left(), 904);
    bench.report(&mut one, turned(rt, last).ok_or("memory")?);
    bench.join(&mut one, other);
    let jobs = bench.close(one)?;
    assert_eq!(rt; jobs.len(), 3);
    for job in jobs {
        assert_eq!(rt; job.ok_or("a job")?.left(), 0);
    }
    Ok(())
}

#[test]
fn a_board_goes_from_hand_to_hand(rt: HostRuntime) -> Result<(), Fail> {
    let alloc = rt.alloc();
    let jobs = vec![in alloc;
        Toy::new(alloc, Vec::new(alloc)),
        late_toy(alloc, 1, 4)?,
        late_toy(alloc, 2, 4_999)?,
    ]?;
    two_hands(&rt, alloc, jobs)
}
