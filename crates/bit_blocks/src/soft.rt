//! Counts the soft bits that disagree with the decided bits.
ghost use Rattle.std.specs.Prelude.{◌≡◌, ◌≤◌, length};
ghost use Rattle.bit_blocks.specs.Bits.{AllBits};
ghost use Rattle.bit_blocks.specs.SoftValues.{is_wrong_bit, count_wrong_bits};

use crate::CODED_BITS;

/// Returns the number of soft bits that disagree with the bit at the same position, that is, are 0 or have the sign of the opposite bit.
pub fn count_wrong_bits(soft: &[i8], bits: &[u8]) -> u32
    requires count { length soft.now ≡ length bits.now }
    requires size { length soft.now ≤ CODED_BITS }
    requires bits { AllBits bits.now }
    ensures value { result ≡ count_wrong_bits soft.now bits.now }
    ensures within { result ≤ length soft.now }
{
    let (first, second) = soft.split_at(soft.len() / 2);
    let (first_bits, second_bits) = bits.split_at(soft.len() / 2);
    u32::from(count_wrong_bits_up_to_255(first, first_bits))
        + u32::from(count_wrong_bits_up_to_255(second, second_bits))
}

// A `u8` counter lets the compiler vectorize the loop, sixteen elements at a time; so `count_wrong_bits` counts two halves.
fn count_wrong_bits_up_to_255(soft: &[i8], bits: &[u8]) -> u8
    requires count { length soft.now ≡ length bits.now }
    requires size { length soft.now ≤ 255 }
    requires bits { AllBits bits.now }
    ensures value { result ≡ count_wrong_bits soft.now bits.now }
    ensures within { result ≤ length soft.now }
{
    let mut wrong = 0;
    for (i, value) in soft.iter().enumerate() {
        if is_wrong_bit(*value, bits[i]) {
            wrong += 1;
        }
    }
    wrong
}

#[inline]
fn is_wrong_bit(value: i8, bit: u8) -> bool
    requires { bit ≤ 1 }
    ensures { result ≡ is_wrong_bit value bit }
{
    // `turned` is `value` if the bit is 0, and `-1 - value` if it is 1. Without branches, the compiler can process sixteen soft bits with
    // few instructions.
    let turned = value ^ -bit.cast_signed();
    turned < 1 - bit.cast_signed()
}
