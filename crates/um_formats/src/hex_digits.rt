//! Parses words that represent at most 20 octets.
ghost use Rattle.std.specs.Prelude.{◌≡◌, ◌≤◌, length, take, IsTrue};
ghost use Rattle.um_lines.specs.Fields.{is_dash_or_hex, octets_from_hex, octet_count};
ghost use Rattle.um_formats.specs.ShowReading.{has_octets_word_length};

use um_lines::write_octets_from_hex;

/// Returns the octets that a word represents, at the start of the array, and their number.
pub(crate) fn octets_of_hex_word(word: &[u8]) -> ([u8; 20], usize)
    requires each { IsTrue (is_dash_or_hex word.now) }
    requires valid_word { IsTrue (has_octets_word_length word.now) }
    requires size { octet_count word.now ≤ 20 }
    ensures count { result.1 ≡ octet_count word.now }
    ensures octets { take result.1 result.0 ≡ octets_from_hex word.now }
    ensures space { length result.0 ≡ 20 }
    ensures within { result.1 ≤ 20 }
{
    let mut room = [0; 20];
    let count = word.len() / 2;
    if !matches!(word, b"-") {
        write_octets_from_hex(word, &mut room[..count]);
    }
    (room, count)
}
