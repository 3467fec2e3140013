//! The world outside: files that are read, and a sink that is written. Two traits say what each call does and
//! when it may fail; files and sinks in memory do exactly that, and those of the operating system meet the same
//! clauses. `read_whole` and `write_whole` take a file or a piece as a whole.
#![tactic(auto)]

mod fault;
mod files;
mod line_start;
mod log;
mod mem_file;
mod mem_files;
mod mem_sink;
mod os_files;
mod os_sink;
mod outlet;
mod read;
mod sink;
mod stand;
mod sure_files;
mod write;

pub use fault::IoFault;
pub use files::Files;
pub use mem_files::MemFiles;
pub use mem_sink::MemSink;
pub use os_files::OsFiles;
pub use os_sink::OsSink;
pub use read::{ReadOut, read_whole};
pub use sink::Sink;
pub use stand::Stand;
pub use sure_files::SureFiles;
pub use write::{WriteFault, write_whole};

#[cfg(test)]
mod sink_tests;
#[cfg(test)]
mod tests;
