//! Accesses that no program makes: a word at no multiple of 4, and a register past the end of each region. And the
//! last microsecond, in which no slot is.
use can_sja1000::Can;
use clint::{Clint, ClintState};
use dev_core::{Device, Effect};
use lab_num::Micros;
use plic::Plic;
use test_finisher::Finisher;
use uart_16550::Uart;

/// Whether a store of all ones in a register does nothing, and a load of it gives 0.
fn is_absent<D: Device>(device: &mut D, reg: u32, width: u8) -> bool {
    device.store(reg, width, 0xFFFF_FFFF) == Effect::Quiet && device.load(reg, width) == 0
}

/// Whether a timer is as a new one after a store of a word here, and reads 0 there.
fn is_no_register_of_a_timer(at: u32) -> bool {
    let now = Micros(0x5_0000_0009);
    let mut timer = Clint::new(1_000_000);
    timer.store(at, 4, 0xF234_5679, now);
    timer.state() == ClintState::reset()
        && timer.mtime(now) == 0x5_0000_0009
        && timer.load(at, 4, now) == 0
}

/// Whether an interrupt controller reads 0 here after a store of a word of ones, and where source 1 has its priority.
fn is_no_register_of_a_controller(at: u32) -> bool {
    let mut controller = Plic::new(40, 2);
    controller.store(at, 4, 0xFFFF_FFFF);
    controller.load(at, 4) == 0 && controller.load(4, 4) == 0
}

#[test]
fn an_access_that_no_program_makes_reaches_no_register(rt: HostRuntime) {
    let mut uart = Uart::new();
    let _ = uart.store(3, 1, 0x80);
    assert!(rt; is_absent(&mut uart, 0xFFFF_FFFF, 1));
    assert!(rt; is_absent(&mut Can::new(), 0xFFFF_FFFF, 1));
    assert!(rt; is_absent(&mut Finisher::new(), 1, 4));
    for at in [0x0001, 0xBFFA, 0xFFFF_FFFF] {
        assert!(rt; is_no_register_of_a_timer(at));
    }
    for at in [0x5, 0xFFFF_FFFC] {
        assert!(rt; is_no_register_of_a_controller(at));
    }
}

/// The hertz of a counter, what it began at, mtimecmp, and the counter and its line after 10,000 seconds.
static ENDS: [(u32, u64, u64, u64, bool); 4] = [
    (32_768, 7, u64::MAX, 327_680_007, false),
    (1_000_000, 0, u64::MAX, 10_000_000_000, false),
    (1_000_000, 7, 10_000_000_000, 10_000_000_007, true),
    (
        1_000_000_000,
        0,
        10_000_000_000_000,
        10_000_000_000_000,
        true,
    ),
];

fn ends((frequency, offset, mtimecmp, mtime, up): (u32, u64, u64, u64, bool)) -> bool {
    let now = Micros(10_000_000_000);
    let mut state = ClintState::reset();
    state.offset = offset;
    state.mtimecmp = mtimecmp;
    let mut timer = Clint::new(frequency.clamp(1, 1_000_000_000));
    timer.put(&state);
    timer.mtime(now) == mtime
        && u64::from(timer.load(0xBFF8, 4, now)) == mtime % (1 << 32)
        && u64::from(timer.load(0xBFFC, 4, now)) == mtime >> 32
        && timer.timer(now) == up
}

#[test]
fn a_timer_counts_to_the_end_of_lab_time(rt: HostRuntime) {
    for row in &ENDS {
        assert!(rt; ends(*row), "{row:?}");
    }
}
