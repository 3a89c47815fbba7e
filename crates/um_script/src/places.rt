//! Parses words that are indices of bits in a block.
ghost use Rattle.std.specs.Prelude.{◌≡◌, ◌≤◌, ◌∷◌, ℕ, not, length, min, take, IsTrue};
ghost use Rattle.std.specs.List.{list_any};
ghost use Rattle.std.specs.Str.{all_ascii_digits};
ghost use Rattle.std.specs.Str.Parse.{digits_value};
ghost use Rattle.um_lines.specs.Words.{words};
ghost use Rattle.um_lines.specs.Fields.{is_decimal};
ghost use Rattle.um_lines.specs.Forms.{has_repeated_number};
ghost use Rattle.um_script.specs.ScriptReading.{is_index_above_591};
ghost use Rattle.um_script.specs.Held.{remaining_words, decimal_word_values, AreDecimalWords, AreBitIndexWords};

use um_lines::first_word;

const BLOCK_BIT_COUNT: u16 = 592;

/// Splits a text into its first word and, if more words follow, the text after it.
fn split_first_word(text: &[u8]) -> (&[u8], Option<&[u8]>)
    ensures { words text.now ≡ result.0.now ∷ remaining_words result.1 }
{
    match first_word(text) {
        None => (text, None),
        Some((word, rest)) => (word, Some(rest)),
    }
}

/// Whether a word is a decimal number without leading zeros.
fn is_decimal(word: &[u8]) -> bool
    ensures { result ≡ is_decimal word.now }
{
    let digits = are_digits(word);
    match word {
        [] => false,
        [_] => digits,
        [first, ..] => digits && *first != b'0',
    }
}

fn are_digits(word: &[u8]) -> bool
    ensures { result ≡ all_ascii_digits word.now }
{
    let mut all = true;
    for octet in word {
        all &= octet.is_ascii_digit();
    }
    all
}

/// Whether every word of a text is a decimal number without leading zeros.
pub(crate) fn are_decimals(text: &[u8]) -> bool
    ensures { result ≡ not (list_any (λ w. not (is_decimal w)) (words text.now)) }
{
    let mut rest = Some(text);
    while let Some(text) = rest {
        let (word, others) = split_first_word(text);
        if !is_decimal(word) {
            return false;
        }
        rest = others;
    }
    true
}

/// Returns the number that a word of digits represents, or 592 if the number is greater. The word may have any length: each step is capped,
/// so that every value fits 16 bits.
fn bit_index_of_word(word: &[u8]) -> u16
    requires { IsTrue (all_ascii_digits word.now) }
    ensures { result ≡ min (digits_value 10 word.now) 592 }
{
    let mut place = 0;
    for digit in word {
        place = (10 * place + u16::from(*digit - b'0')).min(BLOCK_BIT_COUNT);
    }
    place
}

pub(crate) fn has_index_above_591(text: &[u8]) -> bool
    requires { AreDecimalWords (words text.now) }
    ensures { result ≡ list_any is_index_above_591 (words text.now) }
{
    let mut rest = Some(text);
    while let Some(text) = rest {
        let (word, others) = split_first_word(text);
        if bit_index_of_word(word) == BLOCK_BIT_COUNT {
            return true;
        }
        rest = others;
    }
    false
}

/// Whether the text lists a bit index twice. Each index that has occurred is marked, so that one pass over the words is enough.
pub(crate) fn has_repeated_index(text: &[u8]) -> bool
    requires { AreBitIndexWords (words text.now) }
    ensures { result ≡ has_repeated_number (decimal_word_values (words text.now)) }
{
    let mut named = [false; 592];
    let mut rest = Some(text);
    while let Some(text) = rest {
        let (word, others) = split_first_word(text);
        let place = usize::from(bit_index_of_word(word));
        if named[place] {
            return true;
        }
        named[place] = true;
        rest = others;
    }
    false
}

/// Writes the bit indices in the words of the text to the start of `places`, and returns their number.
pub(crate) fn hold_places(places: &mut [u16; 592], text: &[u8]) -> usize
    requires words { AreBitIndexWords (words text.now) }
    requires space { length (words text.now) ≤ 592 }
    ensures places { take result places.new ≡ decimal_word_values (words text.now) }
    ensures count { result ≡ length (words text.now) }
{
    let mut count = 0;
    let mut rest = Some(text);
    while let Some(text) = rest {
        let (word, others) = split_first_word(text);
        places[count] = bit_index_of_word(word);
        count += 1;
        rest = others;
    }
    count
}
