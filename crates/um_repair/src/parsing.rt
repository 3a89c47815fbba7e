//! Parses the input lines of the `repair` command.
ghost use Rattle.std.specs.Prelude.{◌≡◌, ◌∷◌, IfOk, codes};
ghost use Rattle.std.specs.Result.{result_err};
ghost use Rattle.um_lines.specs.bit_blocks.Bits.{AllBits};
ghost use Rattle.um_lines.specs.bit_blocks.Octets.{bits_of};
ghost use Rattle.um_lines.specs.Words.{words};
ghost use Rattle.um_repair.specs.RepairLines.{repair_line, repair_line_fault, RepairLineMeans, repair_parse_result, bits_of_data_and_crc};

use um_lines::{
    BLOCK_BITS, BLOCK_OCTETS, Bits, LineFault, are_hex_digits, first_word, from_octets, octets_of,
    parse_two_words, skips_line,
};

/// The meaning of a line of `repair`.
#[derive(Clone, Copy)]
pub enum RepairLine {
    /// The line is skipped: it is empty, or begins with `#`.
    Skip,
    /// A word of 184 data bits and 40 CRC bits, to be repaired.
    Word(Bits<224>),
}

/// Parses a line of `repair`, without its line feed: `word HEX46 HEX10`, the data and the CRC of a block as `replay` writes them.
///
/// Refuses a line for the first of these reasons that applies: `Long`, `Word`, `Digits` or `Length`.
pub fn parse_repair_line(line: &[u8]) -> Result<RepairLine, LineFault>
    ensures means { IfOk result (RepairLineMeans line.now) }
    ensures refused { result_err result ≡ repair_line_fault line.now }
    ensures value { result ≡ repair_line line.now }
{
    if skips_line(line)? {
        return Ok(RepairLine::Skip);
    }
    parse_words(line)
}

fn parse_words(line: &[u8]) -> Result<RepairLine, LineFault>
    ensures { result ≡ repair_parse_result (words line.now) }
{
    let Some((command, rest)) = first_word(line) else {
        return Err(LineFault::Word);
    };
    match command {
        b"word" => parse_word_with_crc(rest),
        _ => Err(LineFault::Word),
    }
}

fn parse_word_with_crc(operands: &[u8]) -> Result<RepairLine, LineFault>
    ensures { result ≡ repair_parse_result (codes "word" ∷ words operands.now) }
{
    let (octets, check) = parse_two_words(operands)?;
    if !are_hex_digits(octets) || !are_hex_digits(check) {
        return Err(LineFault::Digits);
    }
    if octets.len() != 46 || check.len() != 10 {
        return Err(LineFault::Length);
    }
    Ok(RepairLine::Word(word_of_data_and_crc(&octets_of(octets), &octets_of(check))))
}

fn word_of_data_and_crc(octets: &[u8; BLOCK_OCTETS], check: &[u8; 5]) -> Bits<224>
    ensures { result ≡ bits_of_data_and_crc octets.now check.now }
{
    let mut bits = [0; 224];
    from_octets(octets, &mut bits[..BLOCK_BITS]);
    from_octets(check, &mut bits[BLOCK_BITS..]);
    Bits::from_array(bits)
}
