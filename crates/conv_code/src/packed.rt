//! The encoder for packed bits: it turns four information bits at a time into one octet of eight coded bits.
ghost use Rattle.std.specs.Prelude.{◌≡◌, ℕ, ◌+◌, ◌*◌, ◌%◌, ◌<◌, slice_index};
ghost use Rattle.bit_blocks.specs.Octets.{bits_of};
ghost use Rattle.bit_blocks.specs.Packed.{AreCodedBitsPacked, bit_of};
ghost use Rattle.conv_code.specs.Code.{encoding};
ghost use Rattle.conv_code.specs.CodedPairs.{HoldsFourCodedPairs};

/// Encodes 256 information bits, which `octets` holds least significant bit first. Each octet of the result holds four pairs of coded bits:
/// the first bits of the pairs in bits 0 to 3, and the second bits in bits 4 to 7. An octet 0 in front stands for the bits before the
/// first, which count as 0.
pub fn encode_packed(octets: &[u8; 32]) -> [u8; 64]
    ensures { AreCodedBitsPacked 64 (encoding (bits_of octets.now)) result }
{
    let mut shifted = [0; 33];
    shifted[1..].copy_from_slice(octets);
    encode_four_bits_per_octet(&shifted)
}

/// Encodes four information bits into each octet of the result. The information bits begin with the second octet of `shifted`; the first
/// octet holds the bits before them.
fn encode_four_bits_per_octet(shifted: &[u8; 33]) -> [u8; 64]
    ensures { (t : ℕ) → t < 64 → HoldsFourCodedPairs (bits_of shifted.now) (slice_index result t) t }
{
    let mut packed = [0; 64];
    for m in 0..32 {
        packed[2 * m] = encode_upper_four_bits(straddling_octet(shifted[m], shifted[m + 1]));
        packed[2 * m + 1] = encode_upper_four_bits(shifted[m + 1]);
    }
    packed
}

/// Returns the last four bits of `previous_octet` followed by the first four bits of `current_octet`, as one octet; bit 0 of an octet is
/// its first bit.
#[inline]
fn straddling_octet(previous_octet: u8, current_octet: u8) -> u8
    ensures low { (i : ℕ) → i < 4 → bit_of result i ≡ bit_of previous_octet (i + 4) }
    ensures high { (i : ℕ) → i < 4 → bit_of result (i + 4) ≡ bit_of current_octet i }
{
    (previous_octet >> 4) | ((current_octet & 15) << 4)
}

/// Encodes the upper four of eight information bits. The result holds the first bits of the four coded pairs in bits 0 to 3, and the second
/// bits in bits 4 to 7. Shifts and XORs of the whole octet compute the four pairs at once.
#[inline]
fn encode_upper_four_bits(straddling_octet: u8) -> u8
    ensures first { (i : ℕ) → i < 4 →
        bit_of result i ≡ (bit_of straddling_octet (i + 4) + bit_of straddling_octet (i + 1) + bit_of straddling_octet i) % 2 }
    ensures second { (i : ℕ) → i < 4 →
        bit_of result (i + 4) ≡
        (bit_of straddling_octet (i + 4) + bit_of straddling_octet (i + 3) + bit_of straddling_octet (i + 1)
        + bit_of straddling_octet i) % 2 }
{
    let first = (straddling_octet >> 4) ^ (straddling_octet >> 1) ^ straddling_octet;
    let second = first ^ (straddling_octet >> 3);
    (first & 15) | ((second & 15) << 4)
}
