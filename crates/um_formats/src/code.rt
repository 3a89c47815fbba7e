//! Parses the input lines of the `code` command.
ghost use Rattle.std.specs.Prelude.{◌≡◌, ℕ, List, ◌∷◌, IfOk, codes};
ghost use Rattle.std.specs.Result.{result_err};
ghost use Rattle.um_lines.specs.Words.{words};
ghost use Rattle.um_lines.specs.Meanings.{HasOneMeaningOrFault};
ghost use Rattle.um_formats.specs.CodeLines.{code_line, code_line_fault, CodeLineMeans, code_parse_result};

use um_block::{BLOCK_OCTETS, Bits};
use um_lines::{
    LineFault, are_bit_digits, are_hex_digits, bits_of, first_word, octets_of, parse_digit_up_to,
    parse_only_word, parse_two_words, skips_line,
};

/// The meaning of a line of `code`.
#[derive(Clone, Copy, PartialEq, Eq, Debug)]
pub enum CodeLine {
    /// Nothing: the line is empty or begins with `#`.
    Skip,
    /// A block of 23 octets, to be sent in four normal bursts with training sequence `tsc`, 0 to 7.
    Block { tsc: u8, octets: [u8; BLOCK_OCTETS] },
    /// The 8 information bits of an access burst, and the base station identity code (BSIC) of the cell.
    Rach { info: Bits<8>, bsic: Bits<6> },
    /// The 25 information bits of a synchronisation burst.
    Sch { info: Bits<25> },
}

/// Parses a line of `code`, without its line feed: `block T HEX46`, `rach DIGITS8 BSIC6` or `sch DIGITS25`.
///
/// If several faults apply, returns the first in this order, wherever it occurs in the line: `Long`, `Word`, `Digits`, `Length`.
pub fn parse_code(line: &[u8]) -> Result<CodeLine, LineFault>
    ensures means { IfOk result (CodeLineMeans line.now) }
    ensures refused { result_err result ≡ code_line_fault line.now }
    ensures value { result ≡ code_line line.now }
{
    if skips_line(line)? {
        return Ok(CodeLine::Skip);
    }
    parse_words(line)
}

fn parse_words(line: &[u8]) -> Result<CodeLine, LineFault>
    ensures { result ≡ code_parse_result (words line.now) }
{
    // Recognises a block, the most frequent line, without a search for a space.
    if let Some(rest) = line.strip_prefix(b"block ") {
        return parse_block(rest);
    }
    let Some((command, rest)) = first_word(line) else {
        return Err(LineFault::Word);
    };
    match command {
        b"block" => parse_block(rest),
        b"rach" => parse_rach(rest),
        b"sch" => parse_sch(rest),
        _ => Err(LineFault::Word),
    }
}

// Parses the words after `block`. Searches the text for a space only if some octet is not a digit, to return the right fault.
#[inline(always)]
#[tactic(auto, using(crate::proofs::BurstLines::hex_word, crate::proofs::BurstLines::whole_word))]
fn parse_block(operands: &[u8]) -> Result<CodeLine, LineFault>
    ensures { result ≡ code_parse_result (codes "block" ∷ words operands.now) }
{
    let Some((number, digits)) = first_word(operands) else {
        return Err(LineFault::Word);
    };
    if !are_hex_digits(digits) {
        parse_only_word(digits)?;
        return Err(LineFault::Digits);
    }
    let tsc = parse_digit_up_to(7, number)?;
    if digits.len() != 46 {
        return Err(LineFault::Length);
    }
    let octets = octets_of(digits);
    Ok(CodeLine::Block { tsc, octets })
}

fn parse_rach(operands: &[u8]) -> Result<CodeLine, LineFault>
    ensures { result ≡ code_parse_result (codes "rach" ∷ words operands.now) }
{
    let (info, bsic) = parse_two_words(operands)?;
    if !are_bit_digits(info) || !are_bit_digits(bsic) {
        return Err(LineFault::Digits);
    }
    if info.len() != 8 || bsic.len() != 6 {
        return Err(LineFault::Length);
    }
    Ok(CodeLine::Rach {
        info: bits_of(info),
        bsic: bits_of(bsic),
    })
}

fn parse_sch(operands: &[u8]) -> Result<CodeLine, LineFault>
    ensures { result ≡ code_parse_result (codes "sch" ∷ words operands.now) }
{
    let info = parse_only_word(operands)?;
    if !are_bit_digits(info) {
        return Err(LineFault::Digits);
    }
    if info.len() != 25 {
        return Err(LineFault::Length);
    }
    Ok(CodeLine::Sch {
        info: bits_of(info),
    })
}

/// Law: a line that is not refused has exactly one meaning; a line that is refused has none.
pub fn law_code_line_meaning_is_unique()
    ensures { (line : List ℕ) → HasOneMeaningOrFault (code_line_fault line) (CodeLineMeans line) }
{}
