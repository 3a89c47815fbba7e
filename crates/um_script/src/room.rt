//! A buffer for the data of one script line.
ghost use Rattle.std.specs.Prelude.{◌≡◌, ◌≤◌, ◌*◌, ◌%◌, length, IsTrue, IfOk};
ghost use Rattle.std.specs.List.{list_all};
ghost use Rattle.um_lines.specs.Hex.{is_hex_digit};
ghost use Rattle.um_lines.specs.Words.{words};
ghost use Rattle.um_lines.specs.Fields.{octets_from_hex};
ghost use Rattle.um_script.specs.ScriptReading.{parsed_octets_word, parsed_bit_indices};
ghost use Rattle.um_link.specs.Queues.{AreBitIndices};
ghost use Rattle.um_script.specs.Held.{octets_or_fault, bit_indices_or_fault};

use crate::places::{are_decimals, has_index_above_591, has_repeated_index, hold_places};
use um_lines::{
    LineFault, has_octet_count, is_dash_or_hex, parse_only_word, write_octets_from_hex,
};

/// A buffer, stored inline, for the octets and the bit indices of one line. A line has at most 2,047 octets of data, and a block has 592
/// bits.
#[derive(Drop)]
pub struct Room {
    octets: [u8; 2048],
    bit_indices: [u16; 592],
}

impl Room {
    /// Creates an empty buffer.
    pub fn new() -> Room {
        Room {
            octets: [0; 2048],
            bit_indices: [0; 592],
        }
    }

    /// Copies octets into the buffer, and returns the copy.
    pub fn hold_octets(&mut self, octets: &[u8]) -> &[u8]
        requires { length octets.now ≤ 2048 }
        ensures { result.now ≡ octets.now }
    {
        let held = &mut self.octets[..octets.len()];
        held.copy_from_slice(octets);
        held
    }

    /// Copies bit indices into the buffer, and returns the copy.
    pub fn hold_places(&mut self, places: &[u16]) -> &[u16]
        requires { length places.now ≤ 592 }
        ensures { result.now ≡ places.now }
    {
        let held = &mut self.bit_indices[..places.len()];
        held.copy_from_slice(places);
        held
    }

    /// Parses a text that must be a single word, stores the octets that it represents in the buffer, and returns them, or returns the first
    /// fault.
    pub(crate) fn parse_octets_word(&mut self, text: &[u8]) -> Result<&[u8], LineFault>
        requires { length text.now ≤ 4096 }
        ensures { octets_or_fault result ≡ parsed_octets_word (words text.now) }
    {
        let word = parse_only_word(text)?;
        if !is_dash_or_hex(word) {
            return Err(LineFault::Digits);
        }
        if !has_octet_count(0, None, word) {
            return Err(LineFault::Length);
        }
        if matches!(word, b"-") {
            return Ok(&[]);
        }
        Ok(self.decode_hex_octets(word))
    }

    fn decode_hex_octets(&mut self, digits: &[u8]) -> &[u8]
        requires each { IsTrue (list_all is_hex_digit digits.now) }
        requires even { length digits.now % 2 ≡ 0 }
        requires space { length digits.now ≤ 4096 }
        ensures { result.now ≡ octets_from_hex digits.now }
    {
        let held = &mut self.octets[..digits.len() / 2];
        write_octets_from_hex(digits, held);
        held
    }

    /// Parses each word of a text as a bit index, stores the indices in the buffer, and returns them, or returns the first fault. Each
    /// fault is looked for in all words before the next one, because faults are reported in their own order, not in that of the words.
    pub(crate) fn parse_bit_indices(&mut self, text: &[u8]) -> Result<&[u16], LineFault>
        ensures read { bit_indices_or_fault result ≡ parsed_bit_indices (words text.now) }
        ensures possible { IfOk result (λ places. AreBitIndices places.now) }
    {
        if !are_decimals(text) {
            return Err(LineFault::Digits);
        }
        if has_index_above_591(text) {
            return Err(LineFault::Place);
        }
        if has_repeated_index(text) {
            return Err(LineFault::Twice);
        }
        let count = hold_places(&mut self.bit_indices, text);
        Ok(&self.bit_indices[..count])
    }
}
