//! The processors of a board, one after another.
ghost use Rattle.std.specs.Prelude.{◌≡◌, ◌<◌, ◌≤◌, ◌^◌, ◌||◌, length, map, All, IfOk};
ghost use Rattle.std.specs.List.{list_all};
ghost use Rattle.rv_hart.specs.HartState.{core_of, state_of, IsHartState};
ghost use Rattle.board.specs.Idle.{all_halted, core_passed, is_idle, turns_of};
ghost use Rattle.board.specs.New.{new_cores, reset_core};
ghost use Rattle.board.specs.Inner.Seat.{all_passed};

use lab_num::NoMemory;
use rv_hart::{Hart, HartState, Letters};
use std::alloc::Global;

/// So many processors of these letters, whose numbers are their places.
pub fn new_harts(alloc: Global, count: u8, letters: Letters) -> Result<Vec<Hart>, NoMemory>
    ensures { IfOk result (λ harts. harts.items ≡ new_cores count letters) }
{
    let mut harts = Vec::new(alloc);
    for number in 0..count {
        harts.push(Hart::with(letters, number))?;
    }
    Ok(harts)
}

/// Whether each is halted.
pub fn all_halted(harts: &[Hart]) -> bool
    ensures { result ≡ all_halted harts.now }
{
    harts.iter().all(|hart| hart.halted())
}

/// Whether each is halted or waits.
pub fn all_asleep(harts: &[Hart]) -> bool
    ensures { result ≡ list_all (λ core. core.halted || core.waiting) harts.now }
{
    harts.iter().all(|hart| hart.halted() || hart.waiting())
}

/// Whether the slots of a processor pass by themselves where these interrupts are pending.
pub fn is_idle(hart: &Hart, mip: u32) -> bool
    ensures { result ≡ is_idle hart.now mip }
{
    hart.halted() || (hart.waiting() && !hart.is_ready(mip))
}

/// Brings a processor into its first state. Whether it is halted stays.
fn reset(hart: &mut Hart)
    ensures { hart.new ≡ reset_core hart.old }
{
    let halted = hart.halted();
    *hart = Hart::with(hart.letters(), hart.state().number);
    hart.set_halted(halted);
}

/// Brings all into their first states.
pub fn reset_all(harts: &mut [Hart])
    ensures { harts.new ≡ map reset_core harts.old }
{
    for hart in harts.iter_mut() {
        reset(hart);
    }
}

/// Lets cycles of a processor pass, unless it is halted.
fn pass(hart: &mut Hart, cycles: u64)
    ensures after { hart.new ≡ core_passed cycles hart.old }
    ensures fits { hart.old.mcycle < 2 ^ 64 }
{
    let mut state = hart.state();
    if state.halted {
        return;
    }
    state.mcycle = state.mcycle.wrapping_add(cycles);
    let Some(passed) = Hart::of(&state) else {
        unreachable!()
    };
    *hart = passed;
}

/// How many of the next slots a processor takes, where so many take them in turn from `next` on: as
/// many as each, and one of the rest, where its first turn comes that soon.
fn turns_of(harts: u64, next: u64, slots: u64, hart: u64) -> u64
    requires few { harts ≤ 2 ^ 32 }
    requires next { next < harts }
    requires hart { hart < harts }
    ensures { result ≡ turns_of harts next slots hart }
{
    let first = (hart + (harts - next)) % harts;
    slots / harts + u64::from(first < slots % harts)
}

/// Lets the next slots pass, which the processors take in turn from `next` on.
pub fn pass_cycles(harts: &mut [Hart], next: u64, slots: u64)
    requires few { length harts.old ≤ 2 ^ 32 }
    requires next { next < length harts.old }
    ensures after { harts.new ≡ all_passed harts.old next slots }
    ensures fits { All (λ core. core.mcycle < 2 ^ 64) harts.old }
{
    let count = harts.len() as u64;
    for (number, hart) in harts.iter_mut().enumerate() {
        pass(hart, turns_of(count, next, slots, number as u64));
    }
}

/// All that processors hold.
pub fn states_of(alloc: Global, harts: &[Hart]) -> Result<Vec<HartState>, NoMemory>
    ensures { IfOk result (λ states. states.items ≡ map state_of harts.now) }
{
    let mut states = Vec::new(alloc);
    for hart in harts {
        states.push(hart.state())?;
    }
    Ok(states)
}

/// At every moment a processor is in a state that there is.
pub fn sound_harts_law(harts: &[Hart])
    ensures { All (λ core. IsHartState (state_of core)) harts.now }
{
    for hart in harts {
        let _state = hart.state();
    }
}

/// Brings a processor to a state.
fn bring_to(hart: &mut Hart, state: &HartState)
    requires { IsHartState state.now }
    ensures { hart.new ≡ core_of state.now }
{
    let Some(brought) = Hart::of(state) else {
        unreachable!()
    };
    *hart = brought;
}

/// Brings each to its state.
pub fn bring_all_to(harts: &mut [Hart], states: &[HartState])
    requires count { length states.now ≡ length harts.old }
    requires sound { All IsHartState states.now }
    ensures { harts.new ≡ map core_of states.now }
{
    for (number, hart) in harts.iter_mut().enumerate() {
        bring_to(hart, &states[number]);
    }
}
