//! The driver, which runs every command that reads lines.
#![tactic(auto)]

mod command;
mod driver;
mod gathered;
mod laws;
mod stateless;
mod status;
mod writing;

pub use command::Command;
pub use driver::drive;
pub use laws::law_more_octets_continue_response;
pub use stateless::{Answer, StatelessCommand};
pub use status::Status;
pub use um_io::{MemorySink, MemorySource, PlainSource, ReadSource, Sink, Source, WriteSink};
pub use um_lines::Text;
pub use writing::put_all;
