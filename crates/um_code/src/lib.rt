//! The `code` command: encodes the information of blocks, access bursts and synchronisation bursts, and writes the bursts.
#![tactic(auto)]

mod command;

pub use command::Code;
