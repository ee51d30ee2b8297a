//! Images of firmware, and ELF executables read as images.
#![tactic(auto)]

mod bytes;
mod fields;
mod image;
pub mod laws;
mod load;

pub use bytes::Bytes;
pub use image::{ElfFault, Image, Part};
pub use load::read_elf;
