//! Writes the output lines of `margin`.
ghost use Rattle.std.specs.Prelude.{◌≡◌, ◌+◌, ◌-◌, ◌<◌, ◌≤◌, [], ◌++◌, length};
ghost use Rattle.um_margin.specs.Texts.{margin_and_metric_text, hex_word_text, digit_word_text, block_margin_text, access_margin_text};
ghost use Rattle.um_margin.specs.Texts.{sync_margin_text};

use crate::comparison::WordComparison;
use um_block::{BLOCK_BITS, BLOCK_OCTETS, Bits, ENCODER_INPUT_BITS};
use um_replay::{Text, octets_from_bits_at};

/// Writes the line `block margin G metric M data HEX46 check HEX10 next HEX46 HEX10`.
pub(crate) fn write_block_margin_line(
    out: &mut Text,
    comparison: &WordComparison<ENCODER_INPUT_BITS>,
)
    requires { out.old ≡ [] }
    ensures line { out.new ≡ block_margin_text comparison.now }
    ensures size { length out.new < 2000 }
{
    out.push(b"block");
    push_margin_and_metric(out, comparison.margin, comparison.metric);
    out.push(b" data ");
    push_hex_word(out, &comparison.best, b" check ");
    out.push(b" next ");
    push_hex_word(out, &comparison.next, b" ");
    out.push(b"\n");
}

/// Writes the line `access BSIC6 margin G metric M data DIGITS8 check DIGITS6 next DIGITS8 DIGITS6`.
pub(crate) fn write_access_margin_line(
    out: &mut Text,
    bsic: &Bits<6>,
    comparison: &WordComparison<18>,
)
    requires { out.old ≡ [] }
    ensures line { out.new ≡ access_margin_text bsic.now comparison.now }
    ensures size { length out.new < 2000 }
{
    out.push(b"access ");
    out.push_digits(bsic.as_slice());
    push_margin_and_metric(out, comparison.margin, comparison.metric);
    out.push(b" data ");
    push_data_and_crc_digits(out, &comparison.best, 8, 14, b" check ");
    out.push(b" next ");
    push_data_and_crc_digits(out, &comparison.next, 8, 14, b" ");
    out.push(b"\n");
}

/// Writes the line `sync margin G metric M data DIGITS25 check DIGITS10 next DIGITS25 DIGITS10`.
pub(crate) fn write_sync_margin_line(out: &mut Text, comparison: &WordComparison<39>)
    requires { out.old ≡ [] }
    ensures line { out.new ≡ sync_margin_text comparison.now }
    ensures size { length out.new < 2000 }
{
    out.push(b"sync");
    push_margin_and_metric(out, comparison.margin, comparison.metric);
    out.push(b" data ");
    push_data_and_crc_digits(out, &comparison.best, 25, 35, b" check ");
    out.push(b" next ");
    push_data_and_crc_digits(out, &comparison.next, 25, 35, b" ");
    out.push(b"\n");
}

fn push_margin_and_metric(out: &mut Text, margin: i32, metric: i32)
    requires { length out.old + 100 ≤ 4096 }
    ensures text { out.new ≡ out.old ++ margin_and_metric_text margin metric }
    ensures length { length out.new ≤ length out.old + 100 }
{
    out.push(b" margin ");
    out.push(itoa::Buffer::new().format(margin).as_bytes());
    out.push(b" metric ");
    out.push(itoa::Buffer::new().format(metric).as_bytes());
}

fn push_hex_word(out: &mut Text, word: &Bits<ENCODER_INPUT_BITS>, separator: &[u8])
    requires space { length out.old + 100 ≤ 4096 }
    requires size { length separator.now ≤ 10 }
    ensures text { out.new ≡ out.old ++ hex_word_text word.now separator.now }
    ensures length { length out.new ≡ length out.old + 56 + length separator.now }
{
    out.push_hex(&octets_from_bits_at::<BLOCK_OCTETS, _>(word, 0));
    out.push(separator);
    out.push_hex(&octets_from_bits_at::<5, _>(word, BLOCK_BITS));
}

// Writes the bits of `word` as digits: the data up to index `first_bit`, the separator, and the CRC from `first_bit` up to `end_bit`.
fn push_data_and_crc_digits<const N: usize>(
    out: &mut Text,
    word: &Bits<N>,
    first_bit: usize,
    end_bit: usize,
    separator: &[u8],
)
    requires space { length out.old + end_bit + 10 ≤ 4096 }
    requires size { length separator.now ≤ 10 }
    requires order { first_bit ≤ end_bit }
    requires within { end_bit ≤ N }
    ensures text { out.new ≡ out.old ++ digit_word_text word.now first_bit (end_bit - first_bit) separator.now }
    ensures length { length out.new ≡ length out.old + end_bit + length separator.now }
{
    let bits = word.as_slice();
    out.push_digits(&bits[..first_bit]);
    out.push(separator);
    out.push_digits(&bits[first_bit..end_bit]);
}
