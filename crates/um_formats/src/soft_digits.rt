//! Parses text fields that hold hard bits or soft values, written as digits.
ghost use Rattle.std.specs.Prelude.{◌≡◌, ◌-◌, ◌*◌, ◌==◌, length, map, true, false, IsTrue, MatchResult};
ghost use Rattle.std.specs.List.{list_all, list_any};
ghost use Rattle.um_lines.specs.Hex.{is_hex_digit};
ghost use Rattle.um_block.specs.bit_blocks.SoftValues.{AllSoftBits};
ghost use Rattle.um_lines.specs.Fields.{octets_from_hex, is_bit_digit};
ghost use Rattle.um_block.specs.Received.{soft_bit_of, soft_bits};
ghost use Rattle.um_formats.specs.SoftOctets.{signed_octets};

use um_lines::{LineFault, octets_of};

/// Returns the soft values of `N` hard bits, given as digits: 127 for `0`, -127 for `1`.
pub(crate) fn hard_values<const N: usize>(digits: &[u8]) -> [i8; N]
    requires each { IsTrue (list_all is_bit_digit digits.now) }
    requires size { length digits.now ≡ N }
    ensures { result ≡ soft_bits (map (λ octet. octet - 48) digits.now) }
{
    let mut values = [0; N];
    write_soft_values_of_bit_digits(digits, &mut values);
    values
}

/// Writes what `hard_values` returns. A plain loop: sixteen digits at a time, the last sixteen overlapping, took 18 instructions more for
/// a burst.
pub(crate) fn write_soft_values_of_bit_digits<const N: usize>(digits: &[u8], values: &mut [i8; N])
    requires each { IsTrue (list_all is_bit_digit digits.now) }
    requires size { length digits.now ≡ N }
    ensures value { values.new ≡ soft_bits (map (λ octet. octet - 48) digits.now) }
    ensures soft { AllSoftBits values.new }
{
    for (i, digit) in digits.iter().enumerate() {
        values[i] = soft_value_of_bit_digit(*digit);
    }
}

// The digit `1` gives 129, which is -127 as a signed octet.
fn soft_value_of_bit_digit(digit: u8) -> i8
    requires { IsTrue (is_bit_digit digit) }
    ensures { result ≡ soft_bit_of (digit - 48) }
{
    (2 * (digit - b'0') + 127).cast_signed()
}

/// Returns the soft values that `2 * N` hexadecimal digits represent, or the fault `Soft` if one of them is -128.
pub(crate) fn soft_values_of_hex_digits<const N: usize>(digits: &[u8]) -> Result<[i8; N], LineFault>
    requires each { IsTrue (list_all is_hex_digit digits.now) }
    requires size { length digits.now ≡ 2 * N }
    ensures { MatchResult result
        (λ values. (values ≡ signed_octets (octets_from_hex digits.now))
        × (list_any (λ octet. octet == 128) (octets_from_hex digits.now) ≡ false))
        (λ fault. (fault ≡ LineFault.Soft) × (list_any (λ octet. octet == 128) (octets_from_hex digits.now) ≡ true)) }
{
    let octets: [u8; N] = octets_of(digits);
    if has_minus_128(&octets) {
        return Err(LineFault::Soft);
    }
    let mut values = [0; N];
    write_signed_values(&octets, &mut values);
    Ok(values)
}

// Whether one of the octets is 0x80, the soft value -128. A plain loop: a test in steps of sixteen took 18 instructions more for a burst.
pub(crate) fn has_minus_128(octets: &[u8]) -> bool
    ensures { result ≡ list_any (λ octet. octet == 128) octets.now }
{
    let mut found = false;
    for octet in octets {
        found |= *octet == 0x80;
    }
    found
}

pub(crate) fn write_signed_values<const N: usize>(octets: &[u8; N], values: &mut [i8; N])
    ensures { values.new ≡ signed_octets octets.now }
{
    for (i, octet) in octets.iter().enumerate() {
        values[i] = octet.cast_signed();
    }
}
