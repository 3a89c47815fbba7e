//! Parses the input lines of the `replay` command.
ghost use Rattle.std.specs.Prelude.{◌≡◌, ◌≤◌, ℕ, List, [], ◌∷◌, ◌++◌, length, MatchOption, IfOk, codes};
ghost use Rattle.std.specs.Result.{result_err};
ghost use Rattle.um_block.specs.bit_blocks.Bits.{AllBits};
ghost use Rattle.um_block.specs.Received.{soft_bits};
ghost use Rattle.um_lines.specs.Words.{words};
ghost use Rattle.um_lines.specs.Meanings.{HasOneMeaningOrFault};
ghost use Rattle.um_formats.specs.BurstLines.{burst_line_fault, BurstLineMeans, burst_parse_result};
ghost use Rattle.um_formats.specs.Held.{IsHardNormalBurstLine, IsHexNormalBurstLine};
ghost use Rattle.um_formats.specs.BurstTexts.{normal_burst_text, access_burst_text, sync_burst_text};
ghost use Rattle.um_formats.specs.WrittenBursts.{IsUnskippedLine};

use crate::soft_digits::{hard_values, soft_values_of_hex_digits};
use um_block::{BURST_BITS, Bits};
use um_lines::{
    LineFault, are_bit_digits, are_hex_digits, bits_of, first_word, octets_of, parse_only_word,
    parse_two_words, skips_line,
};

/// The meaning of a line of `replay`. Soft values are positive for 0 and negative for 1.
#[derive(Clone, Copy, PartialEq, Eq, Debug)]
pub enum BurstLine {
    /// Nothing: the line is empty or begins with `#`.
    Skip,
    /// A normal burst, which is one of the four bursts of a block.
    Normal([i8; BURST_BITS]),
    /// An access burst, and the base station identity code (BSIC) of the cell.
    Access { bsic: Bits<6>, soft: [i8; 88] },
    /// A synchronisation burst.
    Sync([i8; BURST_BITS]),
}

/// Parses a line of `replay`, without its line feed: `n DIGITS148`, `a BSIC6 DIGITS88`, `s DIGITS148`, `N HEX296`, `A BSIC6 HEX176`, `S
/// HEX296` or `lost`. `held` is the number of bursts of an incomplete block before this line.
///
/// If several faults apply, returns the first in this order, wherever it occurs in the line: `Long`, `Word`, `Order`, `Digits`,
/// `Length`, `Soft`.
pub fn parse_burst(line: &[u8], held: u8) -> Result<BurstLine, LineFault>
    requires { held ≤ 3 }
    ensures means { IfOk result (BurstLineMeans held line.now) }
    ensures refused { result_err result ≡ burst_line_fault held line.now }
{
    if skips_line(line)? {
        return Ok(BurstLine::Skip);
    }
    parse_burst_words(line, held)
}

/// As `parse_burst`, for a line that is not skipped and has at most 4,096 octets.
#[inline(never)]
pub fn parse_burst_words(line: &[u8], held_bursts: u8) -> Result<BurstLine, LineFault>
    ensures { result ≡ burst_parse_result held_bursts (words line.now) }
{
    let Some((kind, rest)) = first_word(line) else {
        return parse_lost_burst(line);
    };
    let [letter] = kind else {
        return Err(LineFault::Word);
    };
    parse_line_with_letter(*letter, rest, held_bursts)
}

#[tactic(auto, using(crate::proofs::BurstLines::other_letter))]
fn parse_line_with_letter(letter: u8, operands: &[u8], held: u8) -> Result<BurstLine, LineFault>
    ensures { result ≡ burst_parse_result held ((letter ∷ []) ∷ words operands.now) }
{
    match letter {
        b'n' => parse_hard_normal_burst(operands),
        b'N' => parse_soft_normal_burst(operands),
        b'a' => parse_hard_access_burst(operands, held),
        b'A' => parse_soft_access_burst(operands, held),
        b's' => parse_hard_sync_burst(operands, held),
        b'S' => parse_soft_sync_burst(operands, held),
        _ => Err(LineFault::Word),
    }
}

fn parse_lost_burst(word: &[u8]) -> Result<BurstLine, LineFault>
    ensures { (held : ℕ) → result ≡ burst_parse_result held (word.now ∷ []) }
{
    match word {
        b"lost" => Ok(BurstLine::Normal([0; BURST_BITS])),
        _ => Err(LineFault::Word),
    }
}

// Parses the digits of a line `n DIGITS148`. Searches the text for a space only if some octet is not a digit, to return the right fault.
#[tactic(auto, using(crate::proofs::BurstLines::bit_word, crate::proofs::BurstLines::whole_word))]
fn parse_hard_normal_burst(operands: &[u8]) -> Result<BurstLine, LineFault>
    ensures { (held : ℕ) → result ≡ burst_parse_result held (codes "n" ∷ words operands.now) }
{
    if !are_bit_digits(operands) {
        parse_only_word(operands)?;
        return Err(LineFault::Digits);
    }
    if operands.len() != BURST_BITS {
        return Err(LineFault::Length);
    }
    Ok(BurstLine::Normal(hard_values(operands)))
}

// Searches the text for a space only if some octet is not a digit, as `parse_hard_normal_burst` does.
#[tactic(auto, using(crate::proofs::BurstLines::hex_word, crate::proofs::BurstLines::whole_word))]
fn parse_soft_normal_burst(operands: &[u8]) -> Result<BurstLine, LineFault>
    ensures { (held : ℕ) → result ≡ burst_parse_result held (codes "N" ∷ words operands.now) }
{
    if !are_hex_digits(operands) {
        parse_only_word(operands)?;
        return Err(LineFault::Digits);
    }
    if operands.len() != 296 {
        return Err(LineFault::Length);
    }
    Ok(BurstLine::Normal(soft_values_of_hex_digits(operands)?))
}

fn parse_hard_access_burst(operands: &[u8], held_bursts: u8) -> Result<BurstLine, LineFault>
    ensures { result ≡ burst_parse_result held_bursts (codes "a" ∷ words operands.now) }
{
    let (bsic, digits) = parse_two_words(operands)?;
    if held_bursts > 0 {
        return Err(LineFault::Order);
    }
    if !are_bit_digits(bsic) || !are_bit_digits(digits) {
        return Err(LineFault::Digits);
    }
    if bsic.len() != 6 || digits.len() != 88 {
        return Err(LineFault::Length);
    }
    Ok(BurstLine::Access {
        bsic: bits_of(bsic),
        soft: hard_values(digits),
    })
}

fn parse_soft_access_burst(operands: &[u8], held_bursts: u8) -> Result<BurstLine, LineFault>
    ensures { result ≡ burst_parse_result held_bursts (codes "A" ∷ words operands.now) }
{
    let (bsic, digits) = parse_two_words(operands)?;
    if held_bursts > 0 {
        return Err(LineFault::Order);
    }
    if !are_bit_digits(bsic) || !are_hex_digits(digits) {
        return Err(LineFault::Digits);
    }
    if bsic.len() != 6 || digits.len() != 176 {
        return Err(LineFault::Length);
    }
    Ok(BurstLine::Access {
        bsic: bits_of(bsic),
        soft: soft_values_of_hex_digits(digits)?,
    })
}

fn parse_hard_sync_burst(operands: &[u8], held_bursts: u8) -> Result<BurstLine, LineFault>
    ensures { result ≡ burst_parse_result held_bursts (codes "s" ∷ words operands.now) }
{
    let digits = parse_only_word(operands)?;
    if held_bursts > 0 {
        return Err(LineFault::Order);
    }
    if !are_bit_digits(digits) {
        return Err(LineFault::Digits);
    }
    if digits.len() != BURST_BITS {
        return Err(LineFault::Length);
    }
    Ok(BurstLine::Sync(hard_values(digits)))
}

fn parse_soft_sync_burst(operands: &[u8], held_bursts: u8) -> Result<BurstLine, LineFault>
    ensures { result ≡ burst_parse_result held_bursts (codes "S" ∷ words operands.now) }
{
    let digits = parse_only_word(operands)?;
    if held_bursts > 0 {
        return Err(LineFault::Order);
    }
    if !are_hex_digits(digits) {
        return Err(LineFault::Digits);
    }
    if digits.len() != 296 {
        return Err(LineFault::Length);
    }
    Ok(BurstLine::Sync(soft_values_of_hex_digits(digits)?))
}

/// Returns the 148 digits of a line `n DIGITS148`, or `None` for any other line.
#[inline(always)]
pub(crate) fn hard_normal_burst_digits(line: &[u8]) -> Option<&[u8]>
    ensures { MatchOption result ((digits : List ℕ) → ¬ IsHardNormalBurstLine line.now digits)
        (λ digits. IsHardNormalBurstLine line.now digits.now) }
{
    let digits = line.strip_prefix(b"n ")?;
    if digits.len() != BURST_BITS {
        return None;
    }
    if !are_bit_digits(digits) {
        return None;
    }
    Some(digits)
}

/// Returns the 296 octets after `N ` in a line of 298 octets, or `None` for any other line.
pub(crate) fn soft_normal_burst_digits(line: &[u8]) -> Option<&[u8]>
    ensures { MatchOption result ((digits : List ℕ) → ¬ IsHexNormalBurstLine line.now digits)
        (λ digits. (line.now ≡ codes "N " ++ digits.now) × (length digits.now ≡ 296)) }
{
    let digits = line.strip_prefix(b"N ")?;
    if digits.len() != 296 {
        return None;
    }
    Some(digits)
}

/// Law: a line that is not refused has exactly one meaning; a line that is refused has none.
pub fn law_burst_line_meaning_is_unique()
    ensures { (held : ℕ) (line : List ℕ) → HasOneMeaningOrFault (burst_line_fault held line) (BurstLineMeans held line) }
{}

/// Law: parsing the line written for a burst of hard bits returns its soft values, 127 for 0 and -127 for 1.
pub fn law_written_bursts_read_back()
    ensures normal { (held : ℕ) (burst line : List ℕ) → length burst ≡ BURST_BITS → AllBits burst
        → normal_burst_text burst ≡ line ++ codes "\n"
        → IsUnskippedLine line × BurstLineMeans held line (BurstLine.Normal (soft_bits burst)) }
    ensures access { (bsic burst line : List ℕ) → length bsic ≡ 6 → AllBits bsic → length burst ≡ 88 → AllBits burst
        → access_burst_text bsic burst ≡ line ++ codes "\n"
        → IsUnskippedLine line × BurstLineMeans 0 line (BurstLine.Access bsic (soft_bits burst)) }
    ensures sync { (burst line : List ℕ) → length burst ≡ BURST_BITS → AllBits burst
        → sync_burst_text burst ≡ line ++ codes "\n"
        → IsUnskippedLine line × BurstLineMeans 0 line (BurstLine.Sync (soft_bits burst)) }
{}
