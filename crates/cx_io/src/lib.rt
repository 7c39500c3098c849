//! Files that are read and a sink that is written, each with counts of what happened to it.
//!
//! Everything above this crate is generic over `Files` and `Sink`: the real folder and standard
//! output are one form of each, and the forms in memory are the others.
#![tactic(auto)]

mod disk_files;
mod files;
mod mem_files;
mod mem_sink;
mod put;
mod read;
mod sink;
mod std_sink;
mod sure_files;
mod sure_sink;

pub use disk_files::DiskFiles;
pub use files::{Failed, Fetched, Files};
pub use mem_files::MemFiles;
pub use mem_sink::MemSink;
pub use put::{WriteFailed, put_all};
pub use read::{ReadFault, read_whole};
pub use sink::Sink;
pub use std_sink::StdSink;
pub use sure_files::SureFiles;
pub use sure_sink::SureSink;
