//! Writes octets as lowercase hexadecimal digits, two digits for each octet, the high one first.
ghost use Rattle.std.specs.Prelude.{◌≡◌, ◌+◌, ◌*◌, ◌<◌, ◌≤◌, ◌/◌, ◌%◌, ℕ, length, slice_index};
ghost use Rattle.hex.specs.Hex.{encode_lower, lower_digits};
ghost use Rattle.um_lines.specs.HexPlaces.{HasDigitsOfOctet};

#[tactic(auto, using(crate::proofs::Texts::digits_from_places))]
pub(crate) fn write_lower_hex(octets: &[u8], digits: &mut [u8])
    requires size { length digits.old ≡ 2 * length octets.now }
    ensures { digits.new ≡ encode_lower octets.now }
{
    if octets.len() < 16 {
        write_one_by_one(octets, digits);
    } else {
        write_by_sixteens(octets, digits);
    }
}

// Encodes fewer than sixteen octets, which `write_by_sixteens` cannot.
fn write_one_by_one(octets: &[u8], digits: &mut [u8])
    requires size { length digits.old ≡ 2 * length octets.now }
    ensures { digits.new ≡ encode_lower octets.now }
{
    match hex::encode_to_slice(octets, digits) {
        Ok(()) => {}
        Err(_) => unreachable!(),
    }
}

// Encodes octets as hexadecimal digits, sixteen octets at a time. If their number is not a multiple of sixteen, the last sixteen overlap
// the preceding ones, so that no rest needs a loop of its own.
fn write_by_sixteens(octets: &[u8], digits: &mut [u8])
    requires size { length digits.old ≡ 2 * length octets.now }
    requires some { 16 ≤ length octets.now }
    ensures length { length digits.new ≡ length digits.old }
    ensures written { (k : ℕ) → k < length octets.now → HasDigitsOfOctet octets.now digits.new k }
{
    let last = octets.len() - 16;
    let mut at = 0;
    while at < last {
        write_sixteen_hex_octets(octets, digits, at);
        at += 16;
    }
    write_sixteen_hex_octets(octets, digits, last);
}

fn write_sixteen_hex_octets(octets: &[u8], digits: &mut [u8], at: usize)
    requires size { length digits.old ≡ 2 * length octets.now }
    requires space { at + 16 ≤ length octets.now }
    requires before { (k : ℕ) → k < at → HasDigitsOfOctet octets.now digits.old k }
    ensures length { length digits.new ≡ length digits.old }
    ensures written { (k : ℕ) → k < at + 16 → HasDigitsOfOctet octets.now digits.new k }
{
    let (high, low) = digits_of_sixteen(octets, at);
    for i in 0..16 {
        digits[2 * (at + i)] = high[i];
        digits[2 * (at + i) + 1] = low[i];
    }
}

/// Returns the high and the low hexadecimal digits of the sixteen octets that start at index `at`. Two separate arrays show the compiler
/// that writing a digit changes no octet; if this function were inlined, its loop would merge with the caller's into a slower one.
#[inline(never)]
fn digits_of_sixteen(octets: &[u8], at: usize) -> ([u8; 16], [u8; 16])
    requires { at + 16 ≤ length octets.now }
    ensures high { (i : ℕ) → i < 16 → slice_index result.0 i ≡ slice_index lower_digits (slice_index octets.now (at + i) / 16) }
    ensures low { (i : ℕ) → i < 16 → slice_index result.1 i ≡ slice_index lower_digits (slice_index octets.now (at + i) % 16) }
{
    let mut high = [0; 16];
    let mut low = [0; 16];
    for i in 0..16 {
        high[i] = lower_hex_digit(octets[at + i] / 16);
        low[i] = lower_hex_digit(octets[at + i] % 16);
    }
    (high, low)
}

#[tactic(auto, using(crate::proofs::Texts::small_digit, crate::proofs::Texts::large_digit))]
fn lower_hex_digit(value: u8) -> u8
    requires { value < 16 }
    ensures { result ≡ slice_index lower_digits value }
{
    if value < 10 { 48 + value } else { 87 + value }
}
