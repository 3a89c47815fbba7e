//! The interface between the driver and a command that reads lines.
ghost use Rattle.std.specs.Prelude.{◌≡◌, ◌≤◌, [], length};
ghost use Rattle.um_io.specs.Lines.{IsLine};
ghost use Rattle.um_io.specs.Reading.{line_limit};
ghost use Rattle.um_driver.specs.Rules.{Rules, IsLineAnswerOrFault};

use um_lines::{LineFault, Text};

/// A command that reads its input line by line and answers each line.
pub trait Command {
    /// The type of the command's abstract states.
    ghost State: { Type 0 };

    /// The rules of the command: the answer to each line and the next state, or the reason to refuse the line.
    ghost rules: { Rules State };

    /// The abstract state of the command at the start of a run.
    ghost start: { Self → State };

    /// Whether the command represents this abstract state.
    ghost represents: { Self → State → Type 0 };

    /// The type of `kept`, the part of the command that no call changes, such as the identity of a borrow; `Unit {0}` if there is no such
    /// part.
    ghost FixedPart: { Type 0 };

    ghost kept: { Self → FixedPart };

    /// Writes the answer to a line into `out`, or returns the reason why the line is refused.
    fn answer(&mut self, line: &[u8], out: &mut Text) -> Result<(), LineFault>
        requires size { length line.now ≤ line_limit }
        requires plain { IsLine line.now }
        requires empty { out.old ≡ [] }
        ensures answered { (a : State) → represents self.old a
            → IsLineAnswerOrFault rules a line.now result out.new (represents self.new) }
        ensures keeps { kept self.new ≡ kept self.old };

    /// Returns the reason why the input must not end in the current state, or `None` if it may.
    fn finish(&self) -> Option<LineFault>
        ensures { (a : State) → represents self.now a → result ≡ rules.end_fault a };
}
