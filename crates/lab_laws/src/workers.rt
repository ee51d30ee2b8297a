//! That runs do not depend on the number of workers.
ghost use Rattle.std.specs.Prelude.{◌≡◌, ◌≢◌, ◌+◌, ◌<◌, ◌≤◌, ◌⊎◌, ◌↔◌, true, false, Some, IfOk, OnOk, OnErr};
ghost use Rattle.lab_num.specs.declared.number.BoardNo.{BoardNo};
ghost use Rattle.lab_state.specs.One.{first_without, HaveAllPlans};
ghost use Rattle.lab_state.specs.Run.{run};

use dev_core::Device;
use floor_run::Gate;
use lab_num::Micros;
use lab_state::{Lab, RoundLog, RunFault};
use std::sync::Wait;
use std::thread::Threads;

/// Two laboratories that are alike run for the same time, each by its own number of workers. If
/// memory does not run out, each is what one run comes to, and the logs are of that run: whatever the
/// numbers of workers, and in whatever order the workers come to the boards. Refused runs change neither.
pub fn any_workers_agree<R: Threads + Wait + Copy + Send + Sync, D: Device + Send, G: Gate>(
    rt: &R,
    one: &mut Lab<D>,
    workers: u8,
    other: &mut Lab<D>,
    others: u8,
    d: Micros,
    gate: &G,
) -> Result<(RoundLog, RoundLog), RunFault>
    requires alike { one.old ≡ other.old }
    requires workers { (1 ≤ workers) × (workers ≤ 8) }
    requires others { (1 ≤ others) × (others ≤ 8) }
    ensures labs { OnOk result (one.new ≡ other.new) }
    ensures logs { IfOk result (λ logs. logs.0 ≡ logs.1) }
    ensures lab { OnOk result (one.new
        ≡ record { lab = (run one.old.lab d.0).lab; spent = false }) }
    ensures lines { IfOk result (λ logs. logs.0.lines ≡ (run one.old.lab d.0).items) }
    ensures paused { IfOk result (λ logs. logs.0.paused ≡ (run one.old.lab d.0).paused) }
    ensures no_plan { (b : BoardNo) → (result ≡ Err (RunFault.NoPlan b))
        ↔ ((one.old.spent ≡ false) × (first_without one.old.lab.boards ≡ Some b.0)) }
    ensures too_long { (result ≡ Err RunFault.TooLong)
        ↔ ((one.old.spent ≡ false) × HaveAllPlans one.old.lab
        × (10000000000 < one.old.lab.now + d.0)) }
    ensures unchanged { OnErr result (result ≢ Err RunFault.Memory →
        (one.new ≡ one.old) × (other.new ≡ other.old)) }
    ensures memory { result ≡ Err RunFault.Memory →
        (one.new.spent ≡ true) ⊎ (other.new.spent ≡ true) }
    ensures spent { one.old.spent ≡ true → result ≡ Err RunFault.Memory }
{
    let first = one.run_for(rt, d, workers, gate)?;
    let second = other.run_for(rt, d, others, gate)?;
    Ok((first, second))
}
