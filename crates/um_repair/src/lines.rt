//! Writes the output lines of `repair`.
ghost use Rattle.std.specs.Prelude.{◌≡◌, ◌*◌, ◌<◌, [], length};
ghost use Rattle.um_repair.specs.Texts.{answer_text, repaired_text};

use fire_repair::RepairAnswer;
use um_lines::{BLOCK_BITS, BLOCK_OCTETS, Bits, Text, octets_from_bits_at};

/// Writes the line `holds`, `none`, or `repaired first P span S data HEX46 check HEX10`.
pub(crate) fn write_answer_line(out: &mut Text, repair_answer: &RepairAnswer)
    requires { out.old ≡ [] }
    ensures line { out.new ≡ answer_text repair_answer.now }
    ensures size { length out.new < 2000 }
{
    match repair_answer {
        RepairAnswer::Holds => out.push(b"holds\n"),
        RepairAnswer::NoRepair => out.push(b"none\n"),
        RepairAnswer::Repaired { word, first, span } => {
            write_repaired_line(out, word, *first, *span);
        }
    }
}

fn write_repaired_line(out: &mut Text, word: &Bits<224>, first: u8, span: u8)
    requires { out.old ≡ [] }
    ensures line { out.new ≡ repaired_text word.now first span }
    ensures size { length out.new < 2000 }
{
    out.push(b"repaired first ");
    out.push_decimal(u64::from(first));
    out.push(b" span ");
    out.push_decimal(u64::from(span));
    out.push(b" data ");
    out.push_hex(&octets_from_bits_at::<BLOCK_OCTETS, _>(word, 0));
    out.push(b" check ");
    out.push_hex(&octets_from_bits_at::<5, _>(word, BLOCK_BITS));
    out.push(b"\n");
}
