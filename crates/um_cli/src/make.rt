//! Runs the `make` command: carries out the generated session, and writes its summary.
ghost use Rattle.std.specs.Prelude.{◌≡◌, ◌≤◌, ℕ};
ghost use Rattle.um_driver.specs.Table.{FailureCountsMatch};
ghost use Rattle.um_cli.specs.Make.{IsMakeCommandRun, IsTextWritten};
ghost use Rattle.um_make.specs.Texts.{summary_text};

use std::alloc::Global;
use um_driver::{Sink, Status, Text, put_all};
use um_link_command::Radio;
use um_make::{Summary, make, write_summary_lines};

/// Carries out the generated session of `message_count` messages with training sequence code `tsc`, and writes its summary.
///
/// `message_count` must be 1 to 1000, and `tsc` 0 to 7. All memory is allocated before the first block is sent.
pub(crate) fn run_make<K: Sink, R: Radio>(
    alloc: Global,
    message_count: u32,
    tsc: u8,
    output: &mut K,
    radio: &mut R,
) -> Status
    requires some { 1 ≤ message_count }
    requires most { message_count ≤ 1000 }
    requires tsc { tsc ≤ 7 }

    ensures made { IsMakeCommandRun message_count tsc result (K.taken output.old) (K.taken output.new)
        (record { sent_blocks = R.sent radio.old; received_blocks = R.heard radio.old })
        (record { sent_blocks = R.sent radio.new; received_blocks = R.heard radio.new }) }

    ensures opening { result ≡ Status.NoMemory → (output.new ≡ output.old) × (radio.new ≡ radio.old) }
    ensures cause { (read : ℕ) → FailureCountsMatch result read read (K.faults output.old) (K.faults output.new) }
{
    match make(alloc, message_count, tsc, radio) {
        Ok(summary) => write_summary(message_count, tsc, &summary, output),
        Err(_) => Status::NoMemory,
    }
}

fn write_summary<K: Sink>(message_count: u32, tsc: u8, summary: &Summary, output: &mut K) -> Status
    ensures written { IsTextWritten (summary_text message_count tsc summary.now) result (K.taken output.old) (K.taken output.new) }
    ensures cause { (read : ℕ) → FailureCountsMatch result read read (K.faults output.old) (K.faults output.new) }
{
    let mut out = Text::new();
    write_summary_lines(&mut out, message_count, tsc, summary);
    match put_all(output, out.octets()) {
        Ok(()) => Status::Done,
        Err(_) => Status::WriteFault,
    }
}
