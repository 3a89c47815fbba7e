//! The `repair` command: corrects short error bursts in codewords of the control channels.
#![tactic(auto)]

mod command;
mod laws;
mod lines;
mod parsing;

pub use command::Repair;
pub use laws::{law_repair_line_is_not_skipped, law_repair_result_is_correct};
pub use parsing::{RepairLine, parse_repair_line};
