//! Accesses at the ends of the regions of a board, and places of its memory.
use sample_boards::usual_board;
use std::process::Abort;
use std::test::Fail;
use sys_bus::{MemoryPlace, Regions, Target};

/// Accesses of the usual board, at both ends of each region and past them.
static ACCESSES: [(u32, u8, Target); 17] = [
    (0x7FFF_FFFE, 4, Target::Nothing),
    (0x7FFF_FFFF, 1, Target::Nothing),
    (0x8000_0000, 4, Target::Ram { part: 0, at: 0 }),
    (
        0x8000_FFFC,
        4,
        Target::Ram {
            part: 0,
            at: 0xFFFC,
        },
    ),
    (
        0x8000_FFFF,
        1,
        Target::Ram {
            part: 0,
            at: 0xFFFF,
        },
    ),
    (0x8000_FFFE, 4, Target::Nothing),
    (0x8001_0000, 1, Target::Nothing),
    (0x0200_0000, 4, Target::Clint { at: 0 }),
    (0x0200_FFFC, 4, Target::Clint { at: 0xFFFC }),
    (0x0201_0000, 4, Target::Nothing),
    (0x0FFF_FFFC, 4, Target::Plic { at: 0x3FF_FFFC }),
    (0x0FFF_FFFE, 4, Target::Nothing),
    (0x1000_0000, 1, Target::Dev { dev: 0, at: 0 }),
    (0x1000_00FE, 2, Target::Dev { dev: 0, at: 0xFE }),
    (0x1000_00FF, 2, Target::Nothing),
    (0xFFFF_FFFF, 4, Target::Nothing),
    (0x0000_0000, 1, Target::Nothing),
];

/// Addresses, and their places in the memory of the usual board once it was found: those from which
/// four bytes of it lie.
static PLACES: [(u32, Option<MemoryPlace>); 6] = [
    (0x7FFF_FFFF, None),
    (0x8000_0000, Some(MemoryPlace { part: 0, at: 0 })),
    (
        0x8000_FFFC,
        Some(MemoryPlace {
            part: 0,
            at: 0xFFFC,
        }),
    ),
    (0x8000_FFFD, None),
    (0x8001_0000, None),
    (0x1000_0000, None),
];

/// The access belongs to this target, also where what is kept of the last one is tried first.
fn assert_accesses(rt: &impl Abort, regions: &mut Regions, rows: &[(u32, u8, Target)]) {
    for (at, width, target) in rows {
        let (at, width) = (*at, *width);
        assert!(rt; width == 1 || width == 2 || width == 4);
        assert!(rt; regions.find(at, width) == *target, "{at:x} {width}");
        assert!(rt; regions.find_data(at, width) == *target, "{at:x} {width}");
    }
}

fn assert_places(rt: &impl Abort, regions: &Regions, rows: &[(u32, Option<MemoryPlace>)]) {
    for (at, place) in rows {
        assert!(rt; regions.near_code(*at) == *place);
        assert!(rt; regions.near_data(*at) == *place);
    }
}

#[test]
fn an_access_belongs_to_the_region_that_holds_it_whole(rt: HostRuntime) -> Result<(), Fail> {
    let usual = usual_board(rt.alloc())?;
    assert!(rt; usual.is_valid());
    let mut regions = Regions::new(usual.regions.into_items());
    assert_accesses(&rt, &mut regions, &ACCESSES);
    assert!(rt; regions.near_code(0x8000_0000).is_none());
    let target = Target::Ram { part: 0, at: 0x10 };
    assert!(rt; regions.find_code(0x8000_0010) == target);
    assert_places(&rt, &regions, &PLACES);
    Ok(())
}
