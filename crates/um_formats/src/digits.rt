//! Parses words that are one decimal digit.
ghost use Rattle.std.specs.Prelude.{◌≡◌, ◌-◌, ◌≤◌, slice_index, IsTrue};
ghost use Rattle.um_lines.specs.Fields.{is_digit_up_to};

use um_lines::parse_digit_up_to;

pub(crate) fn is_digit_up_to(max_digit: u8, word: &[u8]) -> bool
    requires { max_digit ≤ 9 }
    ensures { result ≡ is_digit_up_to max_digit word.now }
{
    parse_digit_up_to(max_digit, word).is_ok()
}

pub(crate) fn value_of_digit(word: &[u8]) -> u8
    requires { IsTrue (is_digit_up_to 7 word.now) }
    ensures value { result ≡ slice_index word.now 0 - 48 }
    ensures within { result ≤ 7 }
{
    word[0] - b'0'
}
