//! The `end` command, which runs one side on recorded bursts and layer 3 calls.
ghost use Rattle.std.specs.Prelude.{◌≡◌, ◌+◌, ◌*◌, ◌<◌, ◌≤◌, [], ◌∷◌, ◌++◌, length, All, OnOk};
ghost use Rattle.um_link.specs.um_block.conv_code.Likelihood.{AllSoftBits};
ghost use Rattle.um_link.specs.Naming.{spec_role_of, spec_step_of, spec_answer_of, result_with_step};
ghost use Rattle.um_link.specs.Abstraction.{StepFitsItsActor};
ghost use Rattle.um_link.specs.um_io.Lines.{IsLine};
ghost use Rattle.um_link.specs.um_io.Reading.{line_limit};
ghost use Rattle.um_driver.specs.Rules.{IsLineAnswerOrFault};
ghost use Rattle.um_script.specs.AnswerLines.{answer_text};
ghost use Rattle.um_end.specs.EndRuns.{EndCommandState, initial_end_command_state, end_command_rules, answer_to_burst, end_answer_text};
ghost use Rattle.um_end.specs.EndRuns.{burst_lines_of_frames, frames_in_answer};
ghost use Rattle.um_end.specs.Commands.{CommandRepresents, start_state_of_end_command};

use crate::lines::{EndCommandLine, parse_end};
use crate::terminal::Terminal;
use um_driver::Command;
use um_formats::{BLOCK_OCTETS, BURST_BITS, HeldBursts, push_block};
use um_lines::{LineFault, Text};
use um_link::{End, No, Step};
use um_script::{Room, write_step_lines};

/// The state of the `end` command: its terminal, and the bursts received so far of a block.
#[derive(Drop)]
pub struct EndCommand {
    terminal: Terminal,
    held: HeldBursts,
    room: Room,
    // The result of the last block received, or of the last call that was not refused.
    step: Step,
}

impl EndCommand {
    /// Creates the command for a side with idle endpoints and no held bursts. The training sequence code `tsc` must be 0 to 7.
    pub fn new(side: End, tsc: u8) -> EndCommand
        requires { tsc ≤ 7 }
        ensures represents { CommandRepresents result (start_state_of_end_command result) }
        ensures start { start_state_of_end_command result ≡ initial_end_command_state (spec_role_of side) tsc }
    {
        EndCommand {
            terminal: Terminal::new(side, tsc),
            held: HeldBursts::new(),
            room: Room::new(),
            step: Step::new(),
        }
    }

    /// Adds a burst to the unfinished block. After the fourth burst, receives the block and writes the answer.
    fn add_burst_to_block(&mut self, burst: [i8; BURST_BITS], out: &mut Text)
        requires soft { AllSoftBits burst }
        requires empty { out.old ≡ [] }
        ensures answers { (s : EndCommandState) → CommandRepresents self.old s →
            let next = answer_to_burst s burst in
            (out.new ≡ next.0) × CommandRepresents self.new next.1 }
        ensures size { (s : EndCommandState) → CommandRepresents self.old s → length out.new < 2000 }
    {
        if self.held.add(burst) {
            self.terminal
                .receive_into(self.held.block(), &mut self.step);
            write_answer(out, &self.terminal, &Ok(()), &self.step);
        }
    }
}

impl Command for EndCommand {
    ghost State = { EndCommandState };

    ghost rules = { end_command_rules };

    ghost start = { start_state_of_end_command };

    ghost represents = { CommandRepresents };

    ghost FixedPart = { Unit {0} };

    ghost kept = { λ _. tt };

    fn answer(&mut self, line: &[u8], out: &mut Text) -> Result<(), LineFault>
        requires size { length line.now ≤ line_limit }
        requires plain { IsLine line.now }
        requires empty { out.old ≡ [] }
        ensures answered { (s : EndCommandState) → CommandRepresents self.old s →
            IsLineAnswerOrFault end_command_rules s line.now result out.new (CommandRepresents self.new) }
        ensures keeps { tt {0} ≡ tt }
        ensures size { (s : EndCommandState) → CommandRepresents self.old s → length out.new < 2000 }
    {
        match parse_end(line, self.terminal.side, self.held.count(), &mut self.room) {
            Ok(read) => match read {
                EndCommandLine::Skip => {}
                EndCommandLine::Burst(burst) => self.add_burst_to_block(burst, out),
                EndCommandLine::Ask(event) => {
                    let done = self.terminal.ask_into(&event, &mut self.step);
                    write_answer(out, &self.terminal, &done, &self.step);
                }
            },
            Err(fault) => return Err(fault),
        }
        Ok(())
    }

    fn finish(&self) -> Option<LineFault> {
        if self.held.count() == 0 {
            None
        } else {
            Some(LineFault::Order)
        }
    }
}

/// Writes the text of an answer, followed by the burst lines of each frame sent.
fn write_answer(out: &mut Text, terminal: &Terminal, outcome: &Result<(), No>, step: &Step)
    requires empty { out.old ≡ [] }
    requires fits { OnOk outcome.now (StepFitsItsActor (spec_step_of step.now)) }
    ensures text { out.new ≡ end_answer_text terminal.now.tsc (spec_answer_of (result_with_step outcome.now step.now)) }
    ensures whole { All (λ octets. length octets ≡ 23) (frames_in_answer (spec_answer_of (result_with_step outcome.now step.now))) }
    ensures lines { length (answer_text (spec_answer_of (result_with_step outcome.now step.now))) < 2000 }
    ensures length { length out.new ≡
        length (answer_text (spec_answer_of (result_with_step outcome.now step.now))) + 604 * length
        (frames_in_answer (spec_answer_of (result_with_step outcome.now step.now))) }
{
    write_step_lines(out, outcome, step);
    if outcome.is_ok() {
        push_block_lines(out, terminal, step.effects.frames.as_slice());
    }
}

fn push_block_lines(out: &mut Text, terminal: &Terminal, frames: &[[u8; BLOCK_OCTETS]])
    requires space { length out.old < 2000 }
    requires size { length frames.now ≤ 2 }
    ensures text { out.new ≡ out.old ++ burst_lines_of_frames terminal.now.tsc frames.now }
    ensures whole { All (λ octets. length octets ≡ 23) frames.now }
    ensures length { length out.new ≡ length out.old + 604 * length frames.now }
{
    for octets in frames {
        push_block(out, &terminal.bursts(octets));
    }
}
