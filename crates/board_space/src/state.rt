//! What of a board changes, as plain data.
ghost use Rattle.std.specs.Prelude.{◌≡◌, ◌↔◌, All, IsTrue};
ghost use Rattle.sys_bus.specs.Limits.{is_plic_size};
ghost use Rattle.sys_bus.specs.Plan.{IsValid};
ghost use Rattle.board_space.specs.Changes.{is_memory};
ghost use Rattle.board_space.specs.Valid.{IsClintFor, IsPlicFor, IsReservation, IsStateFor};
ghost use Rattle.board_space.specs.Parts.{AreDevices, AreHarts, AreShown, IsStateOfHart, IsStateOfKind, MayBeShown};
ghost use Rattle.board_space.specs.Parts.{HasDevices, HasInterrupts, HasProcessors, HasReservations};

use clint::ClintState;
use dev_core::{DevState, Kind, is_valid_state};
use lab_num::Rows;
use plic::PlicState;
use rv_hart::{Hart, HartState, Letters};
use sys_bus::{BoardPlan, PlicSize, Target, is_speed, target_of};

/// All of a board that changes, its memories aside. Lists are in the order of the plan.
#[derive(Drop)]
pub struct BoardState {
    /// Instructions a microsecond of all processors together.
    pub speed: u32,
    pub harts: Rows<HartState>,
    /// The number of the processor that takes the next slot.
    pub next: u8,
    /// For each processor the address of the word that it has reserved, if it has reserved one.
    pub reserved: Rows<Option<u32>>,
    pub clint: Option<ClintState>,
    pub plic: Option<PlicState>,
    pub devices: Rows<DevState>,
    /// Which devices are shown.
    pub shown: Rows<bool>,
    /// How many posts the board has made so far.
    pub posted: u64,
    /// How many log entries the board has made so far.
    pub entries: u64,
}

/// Whether the processor of a number can have this state.
fn is_state_of_hart(letters: Letters, number: usize, hart: &HartState) -> bool
    ensures { IsTrue result ↔ IsStateOfHart letters number hart.now }
{
    Hart::of(hart).is_some() && hart.letters == letters && usize::from(hart.number) == number
}

/// Whether so many processors can have these states.
fn are_harts(letters: Letters, count: usize, harts: &[HartState]) -> bool
    ensures { IsTrue result ↔ AreHarts letters count harts.now }
{
    if harts.len() != count {
        return false;
    }
    for (number, hart) in harts.iter().enumerate() {
        if !is_state_of_hart(letters, number, hart) {
            return false;
        }
    }
    true
}

fn is_memory(target: Target) -> bool
    ensures { result ≡ is_memory target }
{
    matches!(target, Target::Ram { .. })
}

/// Whether a processor of the plan can have reserved this word.
fn is_reservation(plan: &BoardPlan, word: Option<u32>) -> bool
    ensures { IsTrue result ↔ IsReservation plan.now word }
{
    match word {
        Some(at) => {
            at % 4 == 0 && is_memory(target_of(plan.regions.items(), at, 4)) && plan.letters.a
        }
        None => true,
    }
}

/// Whether the processors of the plan can have reserved these words.
fn are_reservations(plan: &BoardPlan, words: &[Option<u32>]) -> bool
    ensures { IsTrue result ↔ All (IsReservation plan.now) words.now }
{
    words.iter().all(|&word| is_reservation(plan, word))
}

/// Whether there is a timer's state exactly where there is a timer.
fn is_clint_for(frequency: Option<u32>, clint: &Option<ClintState>) -> bool
    ensures { IsTrue result ↔ IsClintFor frequency clint.now }
{
    match (frequency, clint) {
        (Some(_), Some(_)) | (None, None) => true,
        _ => false,
    }
}

/// Whether an interrupt controller of this size, where there is one, can have this state.
fn is_plic_for(size: Option<PlicSize>, plic: &Option<PlicState>) -> bool
    requires { IsTrue (is_plic_size size) }
    ensures { IsTrue result ↔ IsPlicFor size plic.now }
{
    match (size, plic) {
        (Some(size), Some(plic)) => plic.fits(size.sources, size.contexts),
        (None, None) => true,
        _ => false,
    }
}

/// Whether a device of a kind can have this state.
fn is_state_of_kind(kind: Kind, state: &DevState) -> bool
    ensures { IsTrue result ↔ IsStateOfKind kind state.now }
{
    state.kind() == kind && is_valid_state(state)
}

/// Whether devices of these kinds can have these states.
fn are_devices(kinds: &[Kind], devices: &[DevState]) -> bool
    ensures { IsTrue result ↔ AreDevices kinds.now devices.now }
{
    if devices.len() != kinds.len() {
        return false;
    }
    for (dev, state) in devices.iter().enumerate() {
        if !is_state_of_kind(kinds[dev], state) {
            return false;
        }
    }
    true
}

/// Whether a device of a kind may be shown, or not be shown.
fn may_be_shown(kind: Kind, shown: bool) -> bool
    ensures { IsTrue result ↔ MayBeShown kind shown }
{
    !shown || kind.may_be_shown()
}

/// Whether devices of these kinds may be shown like this.
fn are_shown(kinds: &[Kind], shown: &[bool]) -> bool
    ensures { IsTrue result ↔ AreShown kinds.now shown.now }
{
    if shown.len() != kinds.len() {
        return false;
    }
    for (dev, &is_shown) in shown.iter().enumerate() {
        if !may_be_shown(kinds[dev], is_shown) {
            return false;
        }
    }
    true
}

/// Whether the processors of the plan can be in the state, at its speed.
fn has_processors(plan: &BoardPlan, s: &BoardState) -> bool
    requires { IsValid plan.now }
    ensures { IsTrue result ↔ HasProcessors plan.now s.now }
{
    let count = plan.cpus.items().len();
    is_speed(count as u32, s.speed)
        && usize::from(s.next) < count
        && are_harts(plan.letters, count, s.harts.items())
}

/// Whether the processors of the plan can have reserved what the state says.
fn has_reservations(plan: &BoardPlan, s: &BoardState) -> bool
    ensures { IsTrue result ↔ HasReservations plan.now s.now }
{
    s.reserved.items().len() == plan.cpus.items().len()
        && are_reservations(plan, s.reserved.items())
}

/// Whether the timer and the interrupt controller of the plan can be in the state.
fn has_interrupts(plan: &BoardPlan, s: &BoardState) -> bool
    requires { IsValid plan.now }
    ensures { IsTrue result ↔ HasInterrupts plan.now s.now }
{
    is_clint_for(plan.frequency, &s.clint) && is_plic_for(plan.plic, &s.plic)
}

/// Whether the devices of the plan can be in the state, and be shown like this.
fn has_devices(plan: &BoardPlan, s: &BoardState) -> bool
    ensures { IsTrue result ↔ HasDevices plan.now s.now }
{
    let kinds = plan.kinds.items();
    are_devices(kinds, s.devices.items()) && are_shown(kinds, s.shown.items())
}

/// Whether a board of this plan can have the state.
pub fn state_fits(plan: &BoardPlan, s: &BoardState) -> bool
    requires { IsValid plan.now }
    ensures { IsTrue result ↔ IsStateFor plan.now s.now }
{
    has_processors(plan, s)
        && has_reservations(plan, s)
        && has_interrupts(plan, s)
        && has_devices(plan, s)
}
