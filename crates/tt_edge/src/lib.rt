//! The edge of the product: where bytes come in and go out, and what may fail there.
#![tactic(auto)]

pub mod memory_sink;
pub mod memory_source;
pub mod outside;
pub mod reading;
pub mod std_sink;
pub mod std_source;
pub mod writing;

pub use memory_sink::MemorySink;
pub use memory_source::MemorySource;
pub use outside::{Failed, Sink, Source, Unwritten};
pub use reading::{Unread, read_all};
pub use std_sink::StdSink;
pub use std_source::StdSource;
pub use writing::{Unfinished, write_all};
