//! Files, outputs and stores that count their faults, the real ones and ones in memory for tests; and the
//! read of a whole file, as bytes or as a text.
#![tactic(auto)]

mod disk_files;
mod disk_store;
mod files;
mod mem_files;
mod mem_sink;
mod mem_store;
mod out_sink;
mod sink;
mod store;
mod whole;

pub use disk_files::DiskFiles;
pub use disk_store::DiskStore;
pub use files::{Files, ReadAnswer};
pub use mem_files::MemFiles;
pub use mem_sink::MemSink;
pub use mem_store::MemStore;
pub use out_sink::OutSink;
pub use sink::{Sink, WriteFault, Wrote};
pub use store::{Store, StoreAnswer};
pub use whole::{ReadFault, TextFault, read_file, read_text, write_whole};
