//! Commands that keep no state between lines, so that their input may end after any line.
ghost use Rattle.std.specs.Prelude.{◌≡◌, ℕ, List, [], Result, Ok, Err, MatchResult};
ghost use Rattle.um_lines.specs.declared.fault.LineFault.{LineFault as Fault};
ghost use Rattle.um_driver.specs.Rules.{IsLineAnswerOrFault, stateless};

use crate::command::Command;
use um_lines::{LineFault, Text};

/// A command whose answer to a line does not depend on other lines.
pub trait Answer {
    /// The answer to a line, or the first reason why the line is refused.
    ghost answers: { List ℕ → Result (List ℕ) Fault };

    /// Writes the answer to a line into `out`, or returns the reason why the line is refused.
    fn answer(&self, line: &[u8], out: &mut Text) -> Result<(), LineFault>
        requires empty { out.old ≡ [] }
        ensures { MatchResult result
            (λ _. answers line.now ≡ Ok out.new)
            (λ reason. (answers line.now ≡ Err reason) × (out.new ≡ [])) };
}

/// A command without a state, which an `Answer` defines.
#[derive(Clone, Copy, Debug)]
pub struct StatelessCommand<A>(pub A);

impl<A: Answer> Command for StatelessCommand<A> {
    ghost State = { Unit {0} };

    ghost rules = { stateless A.answers };

    ghost start = { λ _. tt };

    ghost represents = { λ _ _. Unit {0} };

    ghost FixedPart = { Unit {0} };

    ghost kept = { λ _. tt };

    fn answer(&mut self, line: &[u8], out: &mut Text) -> Result<(), LineFault> {
        self.0.answer(line, out)
    }

    fn finish(&self) -> Option<LineFault> {
        None
    }
}
