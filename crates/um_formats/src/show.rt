//! Parses the input lines of the `show` command.
ghost use Rattle.std.specs.Prelude.{◌≡◌, ℕ, ◌<◌, List, Some, ◌∷◌, ◌++◌, length, IfOk, codes};
ghost use Rattle.std.specs.List.{All};
ghost use Rattle.std.specs.Result.{result_err};
ghost use Rattle.lapdm_frame.specs.Content.{Frame, information};
ghost use Rattle.lapdm_frame.specs.Frames.{IsCanonicalCoding};
ghost use Rattle.um_lines.specs.Words.{words};
ghost use Rattle.um_lines.specs.Fields.{Value};
ghost use Rattle.um_lines.specs.Forms.{LineMeans, never_misplaced};
ghost use Rattle.um_lines.specs.ShowForms.{ShowLineKind, show_line_forms};
ghost use Rattle.um_lines.specs.Meanings.{HasOneMeaningOrFault};
ghost use Rattle.um_formats.specs.FrameTexts.{frame_text, octets_text, IsTextOfOctets};
ghost use Rattle.um_formats.specs.ShowLines.{show_line, frame_from_values, show_line_fault, ShowLineMeans, show_parse_result};
ghost use Rattle.um_formats.specs.WrittenBursts.{IsUnskippedLine};

use crate::frame_words::frame_words;
use lapdm_frame::Channel;
use um_block::BLOCK_OCTETS;
use um_lines::{LineFault, are_hex_digits, octets_of, parse_only_word, skips_line};

/// The meaning of a line of `show`.
#[derive(Clone, Copy, PartialEq, Eq, Debug)]
pub enum ShowLine {
    /// Nothing: the line is empty or begins with `#`.
    Skip,
    /// A line with 23 octets. The answer is the text line of the frame in them.
    Octets([u8; BLOCK_OCTETS]),
    /// A line with a frame. The answer is the canonical coding of the frame on SDCCH, which is stored here.
    Frame([u8; BLOCK_OCTETS]),
}

/// Parses a line of `show`, without its line feed: `octets HEX46`, or a frame as `frame_line` writes it. Hexadecimal digits may be in upper
/// or lower case.
///
/// If several faults apply, returns the first in this order, wherever it occurs in the line: `Long`, `Word`, `Digits`, `Length`.
pub fn parse_show(line: &[u8]) -> Result<ShowLine, LineFault>
    ensures means { IfOk result (ShowLineMeans line.now) }
    ensures refused { result_err result ≡ show_line_fault line.now }
    ensures value { result ≡ show_line line.now }
{
    if skips_line(line)? {
        return Ok(ShowLine::Skip);
    }
    parse_words(line)
}

// Compares the first word together with its space, which takes fewer instructions than a search for the space.
fn parse_words(line: &[u8]) -> Result<ShowLine, LineFault>
    ensures { result ≡ show_parse_result (words line.now) }
{
    if let Some(rest) = line.strip_prefix(b"octets ") {
        parse_octets(rest)
    } else if let Some(rest) = line.strip_prefix(b"frame ") {
        parse_frame(rest)
    } else {
        Err(LineFault::Word)
    }
}

// Parses the word after `octets`. Searches the text for a space only if some octet is not a digit, to return the right fault.
#[tactic(auto, using(crate::proofs::BurstLines::hex_word, crate::proofs::BurstLines::whole_word))]
fn parse_octets(operands: &[u8]) -> Result<ShowLine, LineFault>
    ensures { result ≡ show_parse_result (codes "octets" ∷ words operands.now) }
{
    if !are_hex_digits(operands) {
        parse_only_word(operands)?;
        return Err(LineFault::Digits);
    }
    if operands.len() != 46 {
        return Err(LineFault::Length);
    }
    Ok(ShowLine::Octets(octets_of(operands)))
}

fn parse_frame(frame_text: &[u8]) -> Result<ShowLine, LineFault>
    ensures { result ≡ show_parse_result (codes "frame" ∷ words frame_text.now) }
{
    let found = frame_words(frame_text)?;
    if !found.have_valid_digits() {
        return Err(LineFault::Digits);
    }
    if !found.has_valid_info_length() {
        return Err(LineFault::Length);
    }
    Ok(ShowLine::Frame(found.octets()))
}

/// Law: a line that is not refused has exactly one meaning; a line that is refused has none.
pub fn law_show_line_meaning_is_unique()
    ensures { (line : List ℕ) → HasOneMeaningOrFault (show_line_fault line) (ShowLineMeans line) }
{}

/// Law: parsing the line written for octets returns these octets, and parsing the line written for the frame in canonical SDCCH octets
/// returns the same octets. Conversely, if the line of a frame parses to octets, the line written for these octets is the line of that
/// frame.
pub fn law_written_frames_read_back()
    ensures octets { (octets line : List ℕ) → length octets ≡ BLOCK_OCTETS → All (λ octet. octet < 256) octets
        → octets_text octets ≡ line ++ codes "\n" → IsUnskippedLine line × ShowLineMeans line (ShowLine.Octets octets) }
    ensures canonical { (f : Frame) (octets text line : List ℕ) → IsCanonicalCoding Channel.Sdcch f octets
        → All (λ octet. octet < 256) (information f.content) → IsTextOfOctets octets text
        → text ≡ line ++ codes "\n" → IsUnskippedLine line × ShowLineMeans line (ShowLine.Frame octets) }
    ensures again { (written octets : List ℕ) → ShowLineMeans written (ShowLine.Frame octets)
        → (name : ShowLineKind) × (values : List Value) × (f : Frame)
        × LineMeans show_line_forms never_misplaced written (Some (name, values)) × (frame_from_values name values ≡ Some f)
        × ((text : List ℕ) → IsTextOfOctets octets text → text ≡ frame_text f) }
{}
