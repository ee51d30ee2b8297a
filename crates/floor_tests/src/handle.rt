//! Tables of grants.
use lab_num::Micros;
use time_handle::{Handle, Report};

/// A grant, if there is one from `from` to `to` at this speed.
fn grant(from: u64, to: u64, speed: u32) -> Option<Handle> {
    if from <= to && to <= 10_000_000_000 && speed >= 1 && speed <= 1000 {
        Some(Handle::new(Micros(from), Micros(to), speed))
    } else {
        None
    }
}

/// What of it is used and left, the board's time and the report, after `first` slots and then `second`; nothing if
/// they are not paid for.
fn after(handle: Option<Handle>, first: u64, second: u64) -> Option<(u64, u64, u64, Report)> {
    let mut handle = handle?;
    if first > handle.left() {
        return None;
    }
    let _ = handle.used(first);
    if second > handle.left() {
        return None;
    }
    let report = handle.used(second);
    Some((handle.taken(), handle.left(), handle.elapsed().0, report))
}

/// The ends and the speed of a grant, the slots used at first and then, and what that comes to.
type Row = (u64, u64, u32, u64, u64, Option<(u64, u64, u64, Report)>);

static GRANTS: [Row; 18] = [
    (0, 100, 1, 0, 0, Some((0, 100, 0, Report::Break))),
    (0, 100, 1, 50, 49, Some((99, 1, 99, Report::Break))),
    (0, 100, 1, 50, 50, Some((100, 0, 100, Report::Continue))),
    (0, 100, 1, 100, 1, None),
    (0, 100, 2, 100, 0, Some((100, 100, 50, Report::Break))),
    (0, 100, 2, 100, 1, Some((101, 99, 50, Report::Break))),
    (0, 100, 100, 9_000, 999, Some((9_999, 1, 99, Report::Break))),
    (
        0,
        100,
        100,
        9_000,
        1_000,
        Some((10_000, 0, 100, Report::Continue)),
    ),
    (0, 100, 100, 9_000, 1_001, None),
    (200, 250, 100, 0, 0, Some((0, 5_000, 200, Report::Break))),
    (
        200,
        250,
        100,
        1,
        4_998,
        Some((4_999, 1, 249, Report::Break)),
    ),
    (
        200,
        250,
        100,
        1,
        4_999,
        Some((5_000, 0, 250, Report::Continue)),
    ),
    (200, 250, 100, 5_000, 1, None),
    (0, 1, 1_000, 900, 99, Some((999, 1, 0, Report::Break))),
    (0, 1, 1_000, 900, 100, Some((1_000, 0, 1, Report::Continue))),
    (7, 7, 1_000, 0, 0, Some((0, 0, 7, Report::Continue))),
    (
        0,
        10_000_000_000,
        1_000,
        9_999_999_999_999,
        0,
        Some((9_999_999_999_999, 1, 9_999_999_999, Report::Break)),
    ),
    (
        0,
        10_000_000_000,
        1_000,
        9_999_999_999_999,
        1,
        Some((10_000_000_000_000, 0, 10_000_000_000, Report::Continue)),
    ),
];

fn comes_to((from, to, speed, first, second, expected): Row) -> bool {
    after(grant(from, to, speed), first, second) == expected
}

#[test]
fn slots_are_used_up_to_the_end_of_the_grant(rt: HostRuntime) {
    for (place, row) in GRANTS.iter().enumerate() {
        assert!(rt; comes_to(*row), "row {place}");
    }
}
