//! The `link` command: a script drives a mobile, a network and the radio path between them.
#![tactic(auto)]

mod laws;
mod link;

pub use laws::law_link_answers_are_air_steps;
pub use link::LinkCommand;
pub use um_link::{Channel, PlainRadio, Radio, World};
