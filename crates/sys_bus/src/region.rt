//! A range of addresses, and what stands there.
ghost use Rattle.std.specs.Prelude.{◌≡◌, ◌≤◌, ◌+◌};
ghost use Rattle.sys_bus.specs.Region.{holds, overlaps, same_part, target};

/// What stands in a region.
#[derive(Clone, Copy, PartialEq, Eq)]
pub enum RegionKind {
    /// The memory of this number.
    Ram(u8),
    /// The timer.
    Clint,
    /// The interrupt controller.
    Plic,
    /// The device of this number.
    Dev(u8),
}

/// A range of addresses in bytes, and what stands there.
#[derive(Clone, Copy)]
pub struct Region {
    pub base: u32,
    pub size: u32,
    pub kind: RegionKind,
    /// How many bytes lie from one register of a device to the next.
    pub step: u8,
}

/// What an access belongs to. `at` counts in bytes from the base of the region.
#[derive(Clone, Copy, PartialEq, Eq)]
pub enum Target {
    Ram { part: u8, at: u32 },
    Clint { at: u32 },
    Plic { at: u32 },
    Dev { dev: u8, at: u32 },
    /// No region holds all the bytes.
    Nothing,
}

/// Whether these are the same part of a board.
pub(crate) fn is_same_part(a: RegionKind, b: RegionKind) -> bool
    ensures { result ≡ same_part a b }
{
    match (a, b) {
        (RegionKind::Ram(i), RegionKind::Ram(j)) => i == j,
        (RegionKind::Dev(i), RegionKind::Dev(j)) => i == j,
        (RegionKind::Clint, RegionKind::Clint) => true,
        (RegionKind::Plic, RegionKind::Plic) => true,
        _ => false,
    }
}

impl Region {
    /// The address after its last byte.
    pub(crate) fn end(&self) -> u64
        ensures { result ≡ self.now.base + self.now.size }
    {
        u64::from(self.base) + u64::from(self.size)
    }

    /// Whether the region holds so many bytes from an address on.
    #[inline]
    pub(crate) fn holds(&self, at: u32, width: u8) -> bool
        ensures { result ≡ holds at width self.now }
    {
        self.base <= at && u64::from(at) + u64::from(width) <= self.end()
    }

    /// Whether a byte lies in both.
    pub(crate) fn overlaps(&self, other: &Region) -> bool
        ensures { result ≡ overlaps self.now other.now }
    {
        u64::from(self.base.max(other.base)) < self.end().min(other.end())
    }

    /// What an access at an address in the region belongs to.
    #[inline]
    pub(crate) fn target(&self, at: u32) -> Target
        requires { self.now.base ≤ at }
        ensures { result ≡ target at self.now }
    {
        let at = at - self.base;
        match self.kind {
            RegionKind::Ram(part) => Target::Ram { part, at },
            RegionKind::Clint => Target::Clint { at },
            RegionKind::Plic => Target::Plic { at },
            RegionKind::Dev(dev) => Target::Dev { dev, at },
        }
    }
}
