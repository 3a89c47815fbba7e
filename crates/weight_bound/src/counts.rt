//! Computes Hamming distances, the number of wrong soft bits, and the least and greatest strength (absolute value) of soft bits.

ghost use Rattle.std.specs.Prelude.{◌≡◌, ◌<◌, ◌≤◌, length};
ghost use Rattle.bit_blocks.specs.Bits.{AllBits};
ghost use Rattle.bit_blocks.specs.SoftValues.{AllSoftBits, count_wrong_bits};
ghost use Rattle.weight_bound.specs.Distance.{distance};
ghost use Rattle.weight_bound.specs.Restoring.{AreLeastAndGreatestStrength};

use bit_blocks::{CODED_BITS, count_wrong_bits};

/// Returns the Hamming distance between two bit lists of equal length, at most 456.
pub fn distance(a: &[u8], b: &[u8]) -> u32
    requires count { length a.now ≡ length b.now }
    requires at_most { length a.now ≤ CODED_BITS }
    requires bits_a { AllBits a.now }
    requires bits_b { AllBits b.now }
    ensures { result ≡ distance a.now b.now }
{
    let mut places = 0;
    for (k, bit) in a.iter().enumerate() {
        if *bit != b[k] {
            places += 1;
        }
    }
    places
}

/// Returns the number of soft bits that disagree with the coded bit at the same position, that is, are 0 or have the opposite sign.
pub fn wrong_bits(soft: &[i8], coded: &[u8]) -> u32
    requires count { length soft.now ≡ length coded.now }
    requires at_most { length soft.now ≤ CODED_BITS }
    requires soft { AllSoftBits soft.now }
    requires bits { AllBits coded.now }
    ensures { result ≡ count_wrong_bits soft.now coded.now }
{
    count_wrong_bits(soft, coded)
}

/// Returns the least and the greatest absolute value of the soft bits.
pub fn strengths(soft: &[i8]) -> (u8, u8)
    requires any { 0 < length soft.now }
    requires soft { AllSoftBits soft.now }
    ensures { AreLeastAndGreatestStrength soft.now result.0 result.1 }
{
    let mut least = soft[0].unsigned_abs();
    let mut greatest = least;
    for value in soft {
        let strength = value.unsigned_abs();
        least = least.min(strength);
        greatest = greatest.max(strength);
    }
    (least, greatest)
}
