//! Parses the script lines of `link`, which describe events at a side or on the radio path, and writes the output lines for them.
#![tactic(auto)]

mod answer;
mod names;
mod places;
mod room;
mod script;

pub use answer::{law_answer_text_determines_lines, step_lines, write_step_lines};
pub use room::Room;
pub use script::{
    ScriptLine, law_script_line_meaning_is_unique, law_script_messages_are_octets, parse_script,
    parse_script_words,
};
pub use um_lines::{LineFault, Text};
