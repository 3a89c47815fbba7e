//! The `margin` command: reports by how much the path metric of the most likely word exceeds that of the second most likely word.
#![tactic(auto)]

mod command;
mod comparison;
mod laws;
mod lines;

pub use command::Margins;
pub use laws::{
    law_comparison_is_of_two_most_likely_words, law_margin_compares_what_was_received,
    law_margin_zero_on_tie_and_lower_bound, law_replay_reports_most_likely_word,
};
