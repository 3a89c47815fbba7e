//! Generates the events of a session from its number of messages, carries them out, and counts what happens.
#![tactic(auto)]

ghost use Rattle.std.specs.Prelude.{ℕ, ◌≤◌};
ghost use Rattle.um_link.specs.um_air.Sessions.{AllEventsInvertFewBits};
ghost use Rattle.um_make.specs.Generated.{generated_events};
ghost use Rattle.um_make.specs.Runs.{IsGeneratedSession};

mod course;
mod end_summary;
mod run;
mod script;
mod summary;
mod text;

pub use end_summary::EndpointSummary;
pub use run::make;
pub use script::Script;
pub use summary::Summary;
pub use text::write_summary_lines;

/// A generated session inverts at most three bits of each block, and its messages consist of octets.
pub fn law_generated_session_inverts_few_bits()
    ensures { (n : ℕ) → AllEventsInvertFewBits (generated_events n) }
{}

/// The answers that `generated_summary` counts are those of a session over blocks, which the events determine.
pub fn law_generated_answers_are_a_session()
    ensures { (n tsc : ℕ) → tsc ≤ 7 → IsGeneratedSession tsc n }
{}
