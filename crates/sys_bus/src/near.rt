//! The memory in which an access is sought first.
ghost use Rattle.std.specs.Prelude.{◌≡◌, ◌+◌, ◌-◌, ◌≤◌, ◌^◌, IfSome};

use crate::region::Region;

/// A place in a memory. `at` counts in bytes from its first.
#[derive(Clone, Copy, PartialEq, Eq)]
pub struct MemoryPlace {
    pub part: u8,
    pub at: u32,
}

/// The memory in which an access is sought first, as plain numbers: then one comparison says whether
/// the access lies there.
#[derive(Clone, Copy)]
pub(crate) struct NearMemory {
    /// The address of its first byte.
    base: u32,
    /// From how many of its places, counted from the first, four bytes of it lie. 0 where no memory
    /// is known.
    starts: u32,
    part: u8,
    ghost addressed: { base + starts ≤ 2 ^ 32 },
}

impl NearMemory {
    ghost use Rattle.sys_bus.specs.Region.{end_of};
    ghost use Rattle.sys_bus.specs.Inner.Near.{IsNearPlace};

    /// No memory.
    pub(crate) fn none() -> NearMemory
        ensures { result.starts ≡ 0 }
    {
        NearMemory {
            base: 0,
            starts: 0,
            part: 0,
        }
    }

    /// The memory of this number, in this region.
    pub(crate) fn of(region: &Region, part: u8) -> NearMemory
        requires { end_of region.now ≤ 2 ^ 32 }
        ensures base { result.base ≡ region.now.base }
        ensures starts { result.starts ≡ region.now.size - 3 }
        ensures part { result.part ≡ part }
    {
        NearMemory {
            base: region.base,
            starts: region.size.saturating_sub(3),
            part,
        }
    }

    /// The place of an address in the memory, if four bytes of it lie from there on.
    #[inline(always)]
    pub(crate) fn place(&self, at: u32) -> Option<MemoryPlace>
        ensures { IfSome result (IsNearPlace self.now at) }
    {
        let offset = at.wrapping_sub(self.base);
        if offset < self.starts {
            Some(MemoryPlace {
                part: self.part,
                at: offset,
            })
        } else {
            None
        }
    }
}
