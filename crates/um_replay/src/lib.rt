//! Commands that read recorded bursts. Four normal bursts are answered together as a block, any other burst on its own; each command
//! defines its own answers.
#![tactic(auto)]

mod command;
mod laws;
mod replay;
mod reports;

pub use command::BurstCommand;
pub use laws::law_replay_reports_what_was_received;
pub use replay::Replay;
pub use reports::Reports;
pub use um_formats::{Text, octets_from_bits_at};
