//! Laboratories without boards, in which only time goes on.
use super::chip::{Counts, stock};
use super::creates_hubs;
use dev_core::{Device, Stock};
use floor_run::NoGate;
use lab_num::{Micros, NoMemory};
use lab_state::Lab;
use std::alloc::Global;
use std::sync::Wait;
use std::test::Fail;
use std::thread::Threads;

/// The longest time of a laboratory.
const END: Micros = Micros(10_000_000_000);

fn is_at_the_end<D: Device>(lab: &Lab<D>) -> bool {
    !lab.is_spent() && lab.now() == END && lab.quantum() == 1
}

/// Runs to the end in rounds of a microsecond, which would take minutes if each was made.
fn passes<R: Threads + Wait + Copy + Send + Sync, D: Device + Send>(
    rt: &R,
    lab: &mut Lab<D>,
) -> bool {
    if lab.is_spent() {
        return false;
    }
    lab.set_quantum(1);
    match lab.run_for(rt, END, 2, &NoGate) {
        Ok(log) => log.lines.items().is_empty() && log.paused.is_none() && is_at_the_end(lab),
        Err(_) => false,
    }
}

fn passes_on<R: Threads + Wait + Copy + Send + Sync, D: Device + Send>(
    rt: &R,
    alloc: Global,
    stock: Stock<D>,
    has_hubs: bool,
) -> Result<bool, NoMemory> {
    if !stock.is_full() {
        return Ok(false);
    }
    let mut lab = Lab::new(alloc, stock)?;
    if has_hubs && !creates_hubs(&mut lab) {
        return Ok(false);
    }
    Ok(passes(rt, &mut lab))
}

fn passes_counted<R: Threads + Wait + Copy + Send + Sync>(
    rt: &R,
    alloc: Global,
    has_hubs: bool,
) -> Result<bool, NoMemory> {
    let counts = Counts::awaiting(0);
    let stock = stock(alloc, &counts)?;
    passes_on(rt, alloc, stock, has_hubs)
}

#[test]
fn time_goes_on_at_once_without_boards(rt: HostRuntime) -> Result<(), Fail> {
    for has_hubs in [false, true] {
        let has_passed = passes_counted(&rt, rt.alloc(), has_hubs)?;
        assert!(rt; has_passed);
    }
    Ok(())
}
