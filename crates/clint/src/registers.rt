//! The addresses of the registers within the CLINT.

pub const MSIP: u32 = 0x0000;

pub const MTIMECMP_LOW: u32 = 0x4000;

pub const MTIMECMP_HIGH: u32 = 0x4004;

pub const MTIME_LOW: u32 = 0xBFF8;

pub const MTIME_HIGH: u32 = 0xBFFC;
