//! The registers that a half-word names (RISC-V Unprivileged ISA 20191213, section 16.2).
ghost use Rattle.std.specs.Prelude.{◌≡◌, ◌+◌, ◌<◌};
ghost use Rattle.rv_decode.specs.Immediate.{field};

use rv_decode::{bits, register};

/// The register of bits 11 to 7: rd, or rs1.
pub fn rd(half: u32) -> u8
    ensures value { result ≡ field half 7 5 }
    ensures fits { result < 32 }
{
    register(half, 7)
}

/// The register of bits 6 to 2: rs2.
pub fn rs2(half: u32) -> u8
    ensures value { result ≡ field half 2 5 }
    ensures fits { result < 32 }
{
    register(half, 2)
}

/// The register x8 to x15 of bits 9 to 7: rd' or rs1', or both.
pub fn rd_short(half: u32) -> u8
    ensures value { result ≡ 8 + field half 7 3 }
    ensures fits { result < 16 }
{
    8 + bits(half, 7, 3) as u8
}

/// The register x8 to x15 of bits 4 to 2: rs2', or rd' of a load.
pub fn rs2_short(half: u32) -> u8
    ensures value { result ≡ 8 + field half 2 3 }
    ensures fits { result < 16 }
{
    8 + bits(half, 2, 3) as u8
}
