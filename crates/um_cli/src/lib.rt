//! Parses the command-line words, and runs the command that they name.
#![tactic(auto)]

mod laws;
mod link;
mod make;
mod top;
mod words;

pub use laws::{
    law_decoded_words_are_most_likely, law_every_session_delivers, law_replay_recovers_code_input,
};
pub use top::run;
pub use um_driver::{MemorySink, MemorySource, PlainSource, ReadSource, Source, Status, WriteSink};
pub use um_link_command::PlainRadio;
pub use um_make::Script;
pub use words::{Invocation, Words};
