//! The function `run`, which the program `um` calls.
ghost use Rattle.std.specs.Prelude.{◌≡◌, ◌↔◌, ℕ, Some, None};
ghost use Rattle.um_driver.specs.Table.{FailureCountsMatch};
ghost use Rattle.um_cli.specs.Headline.{DecodesToMostLikelyWords, EverySessionDelivers};
ghost use Rattle.um_cli.specs.Machines.{IsRunOfCommand, CommandEndsAsPrescribed, LeavesUnused};
ghost use Rattle.um_cli.specs.Shapes.{command_of_words};
ghost use Rattle.um_end.specs.lapdm_frame.declared.Channel.{Channel as ChannelOf};

use crate::link::run_link;
use crate::make::run_make;
use crate::words::{Invocation, Words};
use std::alloc::Global;
use um_code::Code;
use um_driver::{Sink, Source, StatelessCommand, Status, drive};
use um_end::EndCommand;
use um_link_command::Radio;
use um_margin::Margins;
use um_repair::Repair;
use um_replay::{BurstCommand, Replay};
use um_show::Show;

/// Runs the command named on the command line, reading from `input` and writing to `output`.
///
/// All memory is allocated before the first octet is read. `radio` encodes and decodes the blocks of a session.
///
/// The rules that the clauses `run` and `due` name are functions. What they give is said by these laws and clauses:
/// - of all commands, `law_more_octets_continue_response` of `um_driver`;
/// - of lines, `law_parsed_line_is_its_meaning_or_fault` of `um_lines`, `law_read_lines_are_meanings_or_faults` and
///   `law_lines_with_a_form_are_not_skipped` of `um_formats`;
/// - of `replay`, `law_replay_reports_what_was_received` of `um_replay`, `law_computed_reports_are_those_of_reception` of `um_block`,
///   `law_decoded_words_are_most_likely`, and with `code` `law_replay_recovers_code_input`; of `code`, the clauses `sent`, `value` and
///   `only` of the calls of `um_block` that send;
/// - of `show`, `law_text_of_octets_is_that_of_their_frame` of `um_formats` and `law_frame_reading_is_unique` of `lapdm_frame`;
/// - of `margin`, `law_margin_compares_what_was_received` and `law_comparison_is_of_two_most_likely_words` of `um_margin`; of `repair`,
///   `law_repair_result_is_correct` of `um_repair`;
/// - of `link`, `law_link_answers_are_air_steps` of `um_link_command`, `law_event_answer_is_air_step` of `um_air`, and
///   `law_every_session_delivers`; of `make`, `law_generated_answers_are_a_session` of `um_make`;
/// - of `end`, `law_end_command_lines_are_terminal_steps`, `law_end_command_line_has_one_answer` and `law_received_bursts_are_computed` of
///   `um_end`.
pub fn run<S: Source, K: Sink, R: Radio>(
    alloc: Global,
    words: &Words,
    input: &mut S,
    output: &mut K,
    radio: &mut R,
) -> Status
    // The status is `BadWords` if and only if the words name no command.
    ensures bad_words { (result ≡ Status.BadWords) ↔ (command_of_words words.now ≡ None) }

    // What was written is the response that the rules of the command prescribe for what was read, or a prefix of it, as the status says.
    ensures run { (command : Invocation) → command_of_words words.now ≡ Some command → IsRunOfCommand command result
        (S.left input.old) (S.left input.new) (K.taken output.old) (K.taken output.new)
        (record { sent_blocks = R.sent radio.old; received_blocks = R.heard radio.old })
        (record { sent_blocks = R.sent radio.new; received_blocks = R.heard radio.new }) }

    // The run ends and writes as the rules prescribe for the whole input, unless the source, the sink or an allocation fails.
    ensures due { (command : Invocation) → command_of_words words.now ≡ Some command → CommandEndsAsPrescribed command result
        (S.left input.old) (K.taken output.old) (K.taken output.new) }

    // If the status is `ReadFault`, the source has counted a failure; if it is `WriteFault`, the sink has. Otherwise, both counts are
    // unchanged.
    ensures cause { FailureCountsMatch result (S.faults input.old) (S.faults input.new)
        (K.faults output.old) (K.faults output.new) }

    // If the words name no command or an allocation fails, nothing is read, written or sent. `make` reads nothing, and only `link` and
    // `make` use the radio.
    ensures unused { LeavesUnused (command_of_words words.now) result (input.new ≡ input.old) (output.new ≡ output.old)
        (radio.new ≡ radio.old) }

    // Each block is decoded to a codeword that is at least as likely as any other, given the soft values received, and its data is accepted
    // if and only if its CRC holds. What `replay` answers to a line is the report of such a word for the bursts of the line.
    ensures most_likely { (command : Invocation) → command_of_words words.now ≡ Some command → DecodesToMostLikelyWords command }

    // After any lines that `link` answers, the log of the session is ordered, and the claims about delivery hold if the session is benign,
    // as it is if no event inverts more than three bits of a block.
    ensures session { (tsc : ℕ) (channel : ChannelOf) → command_of_words words.now ≡ Some (Invocation.Link tsc channel) →
        EverySessionDelivers tsc channel }
{
    match words.command() {
        None => Status::BadWords,
        Some(Invocation::Code) => drive(alloc, &mut StatelessCommand(Code), input, output),
        Some(Invocation::Replay) => drive(alloc, &mut BurstCommand::new(Replay {}), input, output),
        Some(Invocation::Show) => drive(alloc, &mut StatelessCommand(Show), input, output),
        Some(Invocation::Margin) => drive(alloc, &mut BurstCommand::new(Margins {}), input, output),
        Some(Invocation::Repair) => drive(alloc, &mut StatelessCommand(Repair), input, output),
        Some(Invocation::Link(tsc, channel)) => run_link(alloc, tsc, channel, input, output, radio),
        Some(Invocation::Make(n, tsc)) => run_make(alloc, n, tsc, output, radio),
        Some(Invocation::End(side, tsc)) => drive(
            alloc,
            &mut EndCommand::new(side, tsc),
            input,
            output,
        ),
    }
}
