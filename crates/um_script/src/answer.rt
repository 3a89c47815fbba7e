//! Writes the output lines for a script line.
ghost use Rattle.std.specs.Prelude.{◌≡◌, ◌+◌, ◌*◌, ◌-◌, ◌<◌, ◌≤◌, [], ◌∷◌, ◌++◌, length, map, take};
ghost use Rattle.std.specs.Prelude.{drop, codes, IfOk, OnOk};
ghost use Rattle.um_lines.specs.Hex.{encode_lower};
ghost use Rattle.um_link.specs.bit_blocks.Octets.{bits_of, octets_of};
ghost use Rattle.um_link.specs.um_air.Air as A;
ghost use Rattle.um_link.specs.um_air.Sessions.{AreOctets};
ghost use Rattle.um_lines.specs.LineTexts.{octets_word};
ghost use Rattle.um_script.specs.AnswerLines.{No as Refusal, Reports, Sends, reception_quality, reception_words, notice_words};
ghost use Rattle.um_script.specs.AnswerLines.{received_block_line};
ghost use Rattle.um_script.specs.AnswerLines.{received_block_lines};
ghost use Rattle.um_script.specs.AnswerLines.{spaced_words, answer_line_text, answer_lines_text, answer_lines, answer_text};
ghost use Rattle.um_script.specs.AnswerLines.{ReceptionIsInRange, NoticeIsInRange, LineIsInRange, LinesAreInRange};
ghost use Rattle.um_link.specs.Naming.{spec_answer_of, spec_step_of, spec_who_of, spec_event_refusal_of, result_with_step};
ghost use Rattle.um_link.specs.Abstraction.{StepFitsItsActor};
ghost use Rattle.um_script.specs.AnswerWords.{actor_word, sapi_suffix, call_refusal_word, closing_reason_word};

use um_lines::{BLOCK_BITS, BLOCK_OCTETS, Text, octets_from_bits_at};
use um_link::{No, Notice, Reason, Received, Sapi, Step, Who};

/// Writes the lines of an answer: the received block, the notices, the frames sent, and `ok`; or `no` and the reason.
pub fn step_lines(out: &mut Text, answer: &Result<Step, No>)
    requires empty { out.old ≡ [] }
    requires fits { IfOk answer.now (λ step. StepFitsItsActor (spec_step_of step)) }
    ensures text { out.new ≡ answer_text (spec_answer_of answer.now) }
    ensures size { length out.new < 2000 }

    // All octets and numbers in the lines are in range, as `law_answer_text_determines_lines` requires.
    ensures fit { LinesAreInRange (answer_lines (spec_answer_of answer.now)) }
{
    match answer {
        Ok(step) => push_step(out, step),
        Err(reason) => push_refusal(out, *reason),
    }
}

/// Writes the lines of an answer. If `outcome` is `Ok`, the step to report is in `step`, the caller's buffer.
pub fn write_step_lines(out: &mut Text, outcome: &Result<(), No>, step: &Step)
    requires empty { out.old ≡ [] }
    requires fits { OnOk outcome.now (StepFitsItsActor (spec_step_of step.now)) }
    ensures text { out.new ≡ answer_text (spec_answer_of (result_with_step outcome.now step.now)) }
    ensures size { length out.new < 2000 }
    ensures fit { LinesAreInRange (answer_lines (spec_answer_of (result_with_step outcome.now step.now))) }
{
    match outcome {
        Ok(()) => push_step(out, step),
        Err(reason) => push_refusal(out, *reason),
    }
}

fn push_refusal(out: &mut Text, reason: No)
    requires { out.old ≡ [] }
    ensures text { out.new ≡ answer_line_text (Refusal (spec_event_refusal_of reason)) }
    ensures size { length out.new ≤ 20 }
{
    out.push(b"no ");
    out.push(call_refusal_word(reason));
    out.push(b"\n");
}

fn call_refusal_word(reason: No) -> &'static [u8]
    ensures word { result.now ≡ call_refusal_word (spec_event_refusal_of reason) }
    ensures size { length result.now ≤ 10 }
{
    match reason {
        No::NotIdle => b"notidle",
        No::NotOpen => b"notopen",
        No::NotRunning => b"notrunning",
        No::Empty => b"empty",
        No::TooLong => b"toolong",
        No::Full => b"full",
        No::Nothing => b"nothing",
        No::AirFull => b"airfull",
    }
}

#[tactic(auto, using(crate::proofs::AnswerLaws::fit_append, crate::proofs::AnswerLaws::lines_text_append))]
fn push_step(out: &mut Text, step: &Step)
    requires { out.old ≡ [] }
    ensures text { out.new ≡ answer_text (spec_answer_of (Ok step.now)) }
    ensures size { length out.new < 2000 }
    ensures fit { LinesAreInRange (answer_lines (spec_answer_of (Ok step.now))) }
{
    push_received_block_if_any(out, step.who, &step.received);
    push_notices(out, step.who, step.sapi, step.effects.notices.as_slice());
    push_frames(out, step.who, step.effects.frames.as_slice());
    out.push(b"ok\n");
}

fn push_received_block_if_any(out: &mut Text, who: Who, received: &Option<Received>)
    requires { out.old ≡ [] }
    ensures text { out.new ≡ answer_lines_text (received_block_lines (spec_who_of who) received.now) }
    ensures size { length out.new ≤ 300 }
    ensures fit { LinesAreInRange (received_block_lines (spec_who_of who) received.now) }
{
    match received {
        Some(r) => push_received_block(out, who, r),
        None => {}
    }
}

fn actor_name(who: Who) -> &'static [u8]
    ensures word { result.now ≡ actor_word (spec_who_of who) }
    ensures size { length result.now ≤ 5 }
{
    match who {
        Who::Mobile => b"mob",
        Who::Network => b"net",
        Who::Rival => b"rival",
        Who::Nobody => b"",
    }
}

#[tactic(auto, using(crate::proofs::AnswerLaws::line_spaced))]
fn push_received_block(out: &mut Text, who: Who, report: &Received)
    requires { out.old ≡ [] }
    ensures text { out.new ≡ answer_line_text (received_block_line (spec_who_of who) report.now.accepted report.now) }
    ensures size { length out.new ≤ 300 }
    ensures fit { LineIsInRange (received_block_line (spec_who_of who) report.now.accepted report.now) }
{
    out.push(actor_name(who));
    match &report.accepted {
        Some(octets) => {
            push_accepted_block(out, octets);
            push_reception_quality(out, report);
        }
        None => {
            out.push(b" drops");
            push_reception_quality(out, report);
            push_dropped_block(out, report);
        }
    }
    out.push(b"\n");
}

fn push_accepted_block(out: &mut Text, octets: &[u8])
    requires space { length out.old ≤ 5 }
    requires count { length octets.now ≡ BLOCK_OCTETS }
    ensures text { out.new ≡ out.old ++ spaced_words (codes "takes" ∷ encode_lower octets.now ∷ []) }
    ensures size { length out.new ≡ length out.old + 53 }
    ensures fit { AreOctets octets.now }
{
    out.push(b" takes ");
    out.push_hex(octets);
}

fn push_reception_quality(out: &mut Text, report: &Received)
    requires { length out.old ≤ 60 }
    ensures text { out.new ≡ out.old ++ spaced_words (reception_words (reception_quality report.now)) }
    ensures size { length out.new ≤ length out.old + 120 }
    ensures fit { ReceptionIsInRange (reception_quality report.now) }
{
    out.push(b" tsc ");
    out.push_decimal(u64::from(report.tsc));
    out.push(b" train ");
    out.push_decimal(u64::from(report.wrong_training));
    out.push(b" metric ");
    out.push(itoa::Buffer::new().format(report.metric).as_bytes());
}

fn push_dropped_block(out: &mut Text, report: &Received)
    requires { length out.old ≤ 180 }
    ensures text { out.new ≡ out.old ++ spaced_words (codes "data" ∷ encode_lower (octets_of (take BLOCK_BITS report.now.u))
        ∷ codes "check" ∷ encode_lower (octets_of (take 40 (drop BLOCK_BITS report.now.u))) ∷ []) }
    ensures size { length out.new ≡ length out.old + 69 }
    ensures data { AreOctets (octets_of (take BLOCK_BITS report.now.u)) }
    ensures check { AreOctets (octets_of (take 40 (drop BLOCK_BITS report.now.u))) }
{
    push_data_and_check_words(
        out,
        &octets_from_bits_at::<BLOCK_OCTETS, _>(&report.u, 0),
        &octets_from_bits_at::<5, _>(&report.u, BLOCK_BITS),
    );
}

fn push_data_and_check_words(out: &mut Text, octets: &[u8], check: &[u8])
    requires space { length out.old ≤ 180 }
    requires size { length octets.now + length check.now ≡ 28 }
    ensures text { out.new ≡ out.old
        ++ spaced_words (codes "data" ∷ encode_lower octets.now ∷ codes "check" ∷ encode_lower check.now ∷ []) }
    ensures size { length out.new ≡ length out.old + 69 }

    // The octets are in range, and unpacking them into bits and packing the bits again restores them.
    ensures fit { AreOctets octets.now × AreOctets check.now }
    ensures octets { octets_of (bits_of octets.now) ≡ octets.now }
    ensures check { octets_of (bits_of check.now) ≡ check.now }
{
    out.push(b" data ");
    out.push_hex(octets);
    out.push(b" check ");
    out.push_hex(check);
}

#[tactic(auto, using(crate::proofs::AnswerLaws::report_line))]
fn push_notices(out: &mut Text, who: Who, sapi: Sapi, notices: &[Notice])
    requires space { length out.old ≤ 300 }
    requires size { length notices.now ≤ 3 }
    ensures text { out.new ≡ out.old ++ answer_lines_text (map (Reports (spec_who_of who) sapi) notices.now) }
    ensures size { length out.new ≤ length out.old + 520 * length notices.now }
    ensures fit { LinesAreInRange (map (Reports (spec_who_of who) sapi) notices.now) }
{
    for notice in notices {
        out.push(actor_name(who));
        out.push(sapi_suffix(sapi));
        push_notice(out, notice);
        out.push(b"\n");
    }
}

fn sapi_suffix(sapi: Sapi) -> &'static [u8]
    ensures word { result.now ≡ sapi_suffix sapi }
    ensures size { length result.now ≤ 1 }
{
    match sapi {
        Sapi::Zero => b"",
        Sapi::Three => b"3",
    }
}

fn push_notice(out: &mut Text, notice: &Notice)
    requires { length out.old ≤ 1400 }
    ensures text { out.new ≡ out.old ++ spaced_words (notice_words notice.now) }
    ensures size { length out.new ≤ length out.old + 512 }
    ensures fit { NoticeIsInRange notice.now }
{
    match notice {
        Notice::Opened(message) => push_word_and_octets(out, b" opened ", message.octets()),
        Notice::Got(message) => push_word_and_octets(out, b" got ", message.octets()),
        Notice::Unit(message) => push_word_and_octets(out, b" unit ", message.octets()),
        Notice::Acked(number) => {
            out.push(b" acked ");
            out.push_decimal(*number);
        }
        Notice::Oversize => out.push(b" oversize"),
        Notice::Closed(reason) => {
            out.push(b" closed ");
            out.push(closing_reason_word(*reason));
        }
    }
}

fn push_word_and_octets(out: &mut Text, word: &[u8], octets: &[u8])
    requires space { length out.old ≤ 1400 }
    requires word { length word.now ≤ 8 }
    requires octets { length octets.now ≤ 251 }
    ensures text { out.new ≡ out.old ++ word.now ++ octets_word octets.now }
    ensures size { length out.new ≤ length out.old + 510 }
    ensures fit { AreOctets octets.now }
{
    out.push(word);
    if octets.is_empty() {
        out.push(b"-");
    } else {
        out.push_hex(octets);
    }
}

fn closing_reason_word(reason: Reason) -> &'static [u8]
    ensures word { result.now ≡ closing_reason_word reason }
    ensures size { length result.now ≤ 10 }
{
    match reason {
        Reason::Contention => b"contention",
        Reason::Failed => b"failed",
        Reason::Refused => b"refused",
        Reason::Released => b"released",
    }
}

fn push_frames(out: &mut Text, who: Who, frames: &[[u8; BLOCK_OCTETS]])
    requires space { length out.old ≤ 1870 }
    requires size { length frames.now ≤ 2 }
    ensures text { out.new ≡ out.old ++ answer_lines_text (map (Sends (spec_who_of who)) frames.now) }
    ensures size { length out.new ≤ length out.old + 60 * length frames.now }
    ensures fit { LinesAreInRange (map (Sends (spec_who_of who)) frames.now) }
{
    for frame in frames {
        out.push(actor_name(who));
        push_sent_frame(out, frame);
    }
}

fn push_sent_frame(out: &mut Text, frame: &[u8])
    requires space { length out.old ≤ 2000 }
    requires count { length frame.now ≡ BLOCK_OCTETS }
    ensures text { out.new ≡ out.old ++ (codes " sends " ++ encode_lower frame.now ++ codes "\n") }
    ensures size { length out.new ≡ length out.old + 54 }
    ensures fit { AreOctets frame.now }
{
    out.push(b" sends ");
    out.push_hex(frame);
    out.push(b"\n");
}

/// Law: the text of an answer determines its lines. If all octets and numbers are in range, two answers have the same text if and only if
/// they have the same lines.
pub fn law_answer_text_determines_lines()
    ensures same { (x y : A.Answer) → answer_lines x ≡ answer_lines y → answer_text x ≡ answer_text y }
    ensures different { (x y : A.Answer) → LinesAreInRange (answer_lines x) → LinesAreInRange (answer_lines y) →
        answer_text x ≡ answer_text y →
        answer_lines x ≡ answer_lines y }
{}
