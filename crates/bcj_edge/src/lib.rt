//! The outside of the compiler and linker: files and sinks with counted faults, and lists of bytes,
//! words and blobs.
#![tactic(auto)]

mod byte_list;
mod host_files;
mod host_sink;
mod lists;
mod mem_files;
mod mem_sink;
mod sinks;
mod store;
mod transfer;

pub use byte_list::Bytes;
pub use host_files::HostFiles;
pub use host_sink::HostSink;
pub use lists::{Blobs, Words};
pub use mem_files::MemFiles;
pub use mem_sink::MemSink;
pub use sinks::{Failed, Sink};
pub use store::{Files, ReadStop, WriteStop};
