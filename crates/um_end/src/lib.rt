//! One side, a mobile or a network, that receives layer 3 calls, and recorded bursts in groups of four.
#![tactic(auto)]

mod asking;
mod command;
mod lines;
mod terminal;
mod two_ends;

pub use command::EndCommand;
pub use lines::{
    EndCommandLine, law_end_line_is_not_skipped, law_end_line_meaning_is_unique, parse_end,
};
pub use terminal::Terminal;
pub use two_ends::{
    law_end_command_line_has_one_answer, law_end_command_lines_are_terminal_steps,
    law_received_bursts_are_computed, law_two_terminals_deliver_in_order,
};
pub use um_link::End;
