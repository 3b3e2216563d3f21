// The outside as traits: where bytes come from, where they go, and the files, each with a fault count.
// With them come the ports in memory, whose every call is known, and the adapters over std.
#![tactic(auto)]

mod failed;
mod fault_count;
mod file_source;
mod files;
mod memory_files;
mod memory_sink;
mod memory_source;
mod pieces;
mod schedule;
mod sink;
mod source;
mod std_files;
mod std_sink;
mod std_source;
mod sure_sink;
mod sure_source;

pub use failed::Failed;
pub use file_source::FileSource;
pub use files::Files;
pub use memory_files::MemoryFiles;
pub use memory_sink::MemorySink;
pub use memory_source::MemorySource;
pub use pieces::{new_piece, read_some};
pub use sink::{Sink, write_whole};
pub use source::Source;
pub use std_files::StdFiles;
pub use std_sink::StdSink;
pub use std_source::StdSource;
pub use sure_sink::SureSink;
pub use sure_source::SureSource;
