//! Input and output of the commands: sources and sinks of octets, and a line reader.
#![tactic(auto)]

mod adapters;
mod buffer;
mod laws;
mod lines;
mod memory;
mod streams;

pub use adapters::{ReadSource, WriteSink};
pub use laws::{law_division_into_lines_is_unique, law_reader_returns_lines_of_source};
pub use lines::{Lines, Next};
pub use memory::{MemorySink, MemorySource, PlainSource};
pub use streams::{Failed, NoMemory, Sink, Source};
