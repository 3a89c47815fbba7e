//! Writes the reports on received blocks and bursts as text lines.
ghost use Rattle.std.specs.Prelude.{◌≡◌, ◌+◌, ◌-◌, ◌<◌, ◌≤◌, [], ◌++◌, length, take, drop};
ghost use Rattle.um_block.specs.bit_blocks.Bits.{AllBits};
ghost use Rattle.um_block.specs.bit_blocks.Octets.{bits_of, octets_of};
ghost use Rattle.um_lines.specs.Hex.{encode_lower};
ghost use Rattle.um_lines.specs.Fields.{bit_digits};
ghost use Rattle.um_formats.specs.Reports.{crc_result_word, quality_text, data_and_check_text, block_report_line, IsBlockReportText};
ghost use Rattle.um_formats.specs.Reports.{access_report_text};
ghost use Rattle.um_formats.specs.Reports.{sync_report_text};

use crate::frames::push_frame;
use um_block::{BLOCK_BITS, BLOCK_OCTETS, Bits, Received, ReceivedAccess, ReceivedSync};
use um_lines::{Text, octets_from_bits_at};

/// Writes the report on a block and, if its CRC is correct, the text line of the frame in it.
pub fn block_report(out: &mut Text, r: &Received)
    requires { out.old ≡ [] }
    ensures report { IsBlockReportText r.now out.new }
    ensures size { length out.new < 2000 }
{
    push_block(out, r);
    if let Some(octets) = &r.accepted {
        push_frame(out, octets);
    }
}

/// Writes the report on an access burst. `bsic` is the base station identity code (BSIC) for the CRC check.
pub fn access_report(out: &mut Text, bsic: &Bits<6>, r: &ReceivedAccess)
    requires { out.old ≡ [] }
    ensures report { out.new ≡ access_report_text bsic.now r.now }
    ensures size { length out.new < 2000 }
{
    out.push(b"access ");
    out.push_digits(bsic.as_slice());
    push_quality(out, r.wrong_training, r.metric, r.accepted.is_some());
    push_data_and_crc_bits(out, &r.u, 8, 14);
}

/// Writes the report on a synchronisation burst.
pub fn sync_report(out: &mut Text, r: &ReceivedSync)
    requires { out.old ≡ [] }
    ensures report { out.new ≡ sync_report_text r.now }
    ensures size { length out.new < 2000 }
{
    out.push(b"sync");
    push_quality(out, r.wrong_training, r.metric, r.accepted.is_some());
    push_data_and_crc_bits(out, &r.u, 25, 35);
}

// Packs the octets from `u`, because a block whose CRC is wrong has no accepted octets.
fn push_block(out: &mut Text, report: &Received)
    requires { out.old ≡ [] }
    ensures text { out.new ≡ block_report_line report.now }
    ensures length { length out.new ≤ 400 }
{
    out.push(b"block tsc ");
    out.push_decimal(u64::from(report.tsc));
    push_quality(
        out,
        report.wrong_training,
        report.metric,
        report.accepted.is_some(),
    );
    push_data_and_check(
        out,
        &octets_from_bits_at::<BLOCK_OCTETS, _>(&report.u, 0),
        &octets_from_bits_at::<5, _>(&report.u, BLOCK_BITS),
    );
}

fn push_quality(out: &mut Text, wrong_bits: u32, metric: i32, crc_holds: bool)
    requires { length out.old + 120 ≤ 4096 }
    ensures text { out.new ≡ out.old ++ quality_text wrong_bits metric crc_holds }
    ensures length { length out.new ≤ length out.old + 120 }
{
    out.push(b" train ");
    out.push_decimal(u64::from(wrong_bits));
    out.push(b" metric ");
    out.push(itoa::Buffer::new().format(metric).as_bytes());
    out.push(b" parity ");
    push_crc_result_word(out, crc_holds);
}

fn push_crc_result_word(out: &mut Text, crc_holds: bool)
    requires { length out.old + 3 ≤ 4096 }
    ensures text { out.new ≡ out.old ++ crc_result_word crc_holds }
    ensures size { length out.new ≤ length out.old + 3 }
{
    if crc_holds {
        out.push(b"ok");
    } else {
        out.push(b"bad");
    }
}

// Appends the first `first_bit` bits of `word` as the data, and the bits from `first_bit` up to `end_bit` as the CRC.
fn push_data_and_crc_bits<const N: usize>(
    out: &mut Text,
    word: &Bits<N>,
    first_bit: usize,
    end_bit: usize,
)
    requires space { length out.old + end_bit + 14 ≤ 4096 }
    requires order { first_bit ≤ end_bit }
    requires within { end_bit ≤ N }
    ensures text { out.new ≡ out.old ++ data_and_check_text (bit_digits (take first_bit word.now))
        (bit_digits (take (end_bit - first_bit) (drop first_bit word.now))) }
    ensures length { length out.new ≡ length out.old + end_bit + 14 }
{
    let bits = word.as_slice();
    out.push(b" data ");
    out.push_digits(&bits[..first_bit]);
    out.push(b" check ");
    out.push_digits(&bits[first_bit..end_bit]);
    out.push(b"\n");
}

fn push_data_and_check(out: &mut Text, octets: &[u8], check: &[u8])
    requires space { length out.old + 70 ≤ 4096 }
    requires size { length octets.now + length check.now ≡ 28 }
    ensures text { out.new ≡ out.old ++ data_and_check_text (encode_lower octets.now) (encode_lower check.now) }
    ensures length { length out.new ≡ length out.old + 70 }

    // Unpacking octets into bits and packing the bits again restores the octets.
    ensures octets { octets_of (bits_of octets.now) ≡ octets.now }
    ensures check { octets_of (bits_of check.now) ≡ check.now }
{
    out.push(b" data ");
    out.push_hex(octets);
    out.push(b" check ");
    out.push_hex(check);
    out.push(b"\n");
}
