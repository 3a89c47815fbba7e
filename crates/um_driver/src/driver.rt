//! The driver, which runs any command on an input.
ghost use Rattle.std.specs.Prelude.{◌≡◌, ◌≢◌, ℕ, ◌<◌, List, Option, Some, None, [], ◌++◌, ◌⊎◌, OnOk};
ghost use Rattle.um_io.specs.Reading.{new_reader, IsResultReady};
ghost use Rattle.um_lines.specs.Refusals.{refused_text};
ghost use Rattle.um_driver.specs.Table.{IsRun, FailureCountsMatch, EndsAsPrescribed};
ghost use Rattle.um_driver.specs.Writing.{BuffersTextIfOk, CountsWriteFailure};
ghost use Rattle.um_driver.specs.Progress.{IsRunUnderway, IsLineOutcome, IsLastWriteResult, ReadFailureIsCounted};

use crate::command::Command;
use crate::gathered::OutputBuffer;
use crate::status::Status;
use std::alloc::Global;
use um_io::{Failed, Lines, Next, Sink, Source};
use um_lines::{LineFault, Text, refused_line};

/// Reads the next line of input and writes the command's answer to `out`. If the run ends instead, returns its final status; `out` then
/// holds the line that reports a refusal, if there is one.
fn answer_next_line<C: Command, S: Source>(
    command: &mut C,
    lines: &mut Lines,
    input: &mut S,
    out: &mut Text,
) -> Option<Status>
    requires { out.old ≡ [] }
    ensures comes { (a : C.State) (left taken taken' : Option (List ℕ)) (gathered : List ℕ) →
        IsRunUnderway C.rules a (C.represents command.old) lines.old left (S.left input.old) taken taken' gathered →
        IsResultReady lines.old ⊎ (gathered ≡ []) →
        IsLineOutcome C.rules a (C.represents command.new) lines.new left (S.left input.new) taken taken' gathered out.new result }
    ensures makes_progress { result ≡ None → lines.old.octet_count < lines.new.octet_count }
    ensures cause { ReadFailureIsCounted result (S.faults input.old) (S.faults input.new) }
    ensures keeps { C.kept command.new ≡ C.kept command.old }
{
    match lines.next(input) {
        Next::Line(line) => match command.answer(line, out) {
            Ok(()) => None,
            Err(fault) => Some(write_refusal(lines.number(), fault, out)),
        },
        Next::End => match command.finish() {
            None => Some(Status::Done),
            Some(fault) => Some(write_refusal(lines.number() + 1, fault, out)),
        },
        Next::Long => Some(write_refusal(lines.number() + 1, LineFault::Long, out)),
        Next::TooMany => Some(Status::TooLong),
        Next::Failed => Some(Status::ReadFault),
    }
}

/// Replaces the contents of `out` with the line that reports why line `line_number`, or the end of the input, is refused. Returns the
/// status `BadInput`.
// Cold and not inlined: it runs once a run, and is kept out of the way of each line.
#[cold]
#[inline(never)]
fn write_refusal(line_number: u64, fault: LineFault, out: &mut Text) -> Status
    ensures text { out.new ≡ refused_text line_number fault }
    ensures status { result ≡ Status.BadInput }
{
    out.clear();
    refused_line(out, line_number, fault);
    Status::BadInput
}

/// Writes the octets in the output buffer, and then those of `out`, to `output`. Returns the final status: `WriteFault` if a write fails,
/// otherwise `status`. After a read failure it writes nothing, because the buffer was written before the source was read.
// Cold and not inlined, as `write_refusal`.
#[cold]
#[inline(never)]
fn write_final_output<K: Sink>(
    status: Status,
    out: &Text,
    gathered: &mut OutputBuffer,
    output: &mut K,
) -> Status
    ensures last_write { IsLastWriteResult status (gathered.old ++ out.now) (K.taken output.old) (K.taken output.new) result }
    ensures cause { (before now : ℕ) → ReadFailureIsCounted (Some status) before now →
        FailureCountsMatch result before now (K.faults output.old) (K.faults output.new) × (result ≢ Status.NoMemory) }
{
    match status {
        Status::ReadFault => status,
        _ => match gathered.add_and_flush(out.octets(), output) {
            Ok(()) => status,
            Err(_) => Status::WriteFault,
        },
    }
}

/// Writes the octets in the output buffer to `output` if the reader must read from the source to return its next result, so that each line
/// is answered before more input is read.
#[inline(always)]
fn flush_before_read<K: Sink>(
    lines: &mut Lines,
    gathered: &mut OutputBuffer,
    output: &mut K,
) -> Result<(), Failed>
    ensures unchanged { lines.new ≡ lines.old }
    ensures gathers { BuffersTextIfOk result gathered.old gathered.new (K.taken output.old) (K.taken output.new) }
    ensures ready { OnOk result (IsResultReady lines.new ⊎ (gathered.new ≡ [])) }
    ensures counted { CountsWriteFailure result (K.faults output.old) (K.faults output.new) }
{
    if lines.is_ready() {
        Ok(())
    } else {
        gathered.flush(output)
    }
}

/// Answers lines until the run ends. Writes all pending answers before each read from the source.
fn answer_all_lines<C: Command, S: Source, K: Sink>(
    command: &mut C,
    lines: &mut Lines,
    input: &mut S,
    output: &mut K,
) -> Status
    requires represents { C.represents command.old (C.start command.old) }
    requires first { lines.old ≡ new_reader }

    ensures table { IsRun C.rules (C.start command.old) (C.represents command.new) result
        (S.left input.old) (S.left input.new) (K.taken output.old) (K.taken output.new) }

    ensures cause { FailureCountsMatch result (S.faults input.old) (S.faults input.new)
        (K.faults output.old) (K.faults output.new) }

    ensures opened { result ≢ Status.NoMemory }
    ensures keeps { C.kept command.new ≡ C.kept command.old }
{
    let mut out = Text::new();
    let mut gathered = OutputBuffer::new();
    // A `match` at each exit, since the prover takes `.is_err()` badly in a function with many exits.
    loop {
        match flush_before_read(lines, &mut gathered, output) {
            Ok(()) => {}
            Err(_) => return Status::WriteFault,
        }
        match answer_next_line(command, lines, input, &mut out) {
            Some(status) => return write_final_output(status, &out, &mut gathered, output),
            None => {}
        }
        match gathered.add(out.octets(), output) {
            Ok(()) => out.clear(),
            Err(_) => return Status::WriteFault,
        }
    }
}

/// Runs a command on the lines of `input`, and writes its answers to `output`.
///
/// All memory is allocated before the first octet is read.
pub fn drive<C: Command, S: Source, K: Sink>(
    alloc: Global,
    command: &mut C,
    input: &mut S,
    output: &mut K,
) -> Status
    requires { C.represents command.old (C.start command.old) }

    ensures table { IsRun C.rules (C.start command.old) (C.represents command.new) result
        (S.left input.old) (S.left input.new) (K.taken output.old) (K.taken output.new) }

    // The run ends as the rules prescribe for the whole input.
    ensures due { EndsAsPrescribed C.rules (C.start command.old) result
        (S.left input.old) (K.taken output.old) (K.taken output.new) }

    ensures cause { FailureCountsMatch result (S.faults input.old) (S.faults input.new)
        (K.faults output.old) (K.faults output.new) }

    ensures words { result ≢ Status.BadWords }

    // If an allocation fails, nothing has been read or written.
    ensures opening { result ≡ Status.NoMemory → (input.new ≡ input.old) × (output.new ≡ output.old) }
    ensures command_unchanged { result ≡ Status.NoMemory → command.new ≡ command.old }

    ensures keeps { C.kept command.new ≡ C.kept command.old }
{
    match Lines::new(alloc) {
        Ok(mut lines) => answer_all_lines(command, &mut lines, input, output),
        Err(_) => Status::NoMemory,
    }
}
