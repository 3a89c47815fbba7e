//! The values of sixteen hexadecimal digits at a time; an octet that is not a hexadecimal digit has a value above 15.
ghost use Rattle.std.specs.Prelude.{◌≡◌, ℕ, ◌+◌, ◌*◌, ◌%◌, ◌<◌, ◌≤◌, ◌&&◌, true, length, map, take, drop};
ghost use Rattle.std.specs.Prelude.{◌++◌, slice_index, IsTrue};
ghost use Rattle.std.specs.List.{list_all};
ghost use Rattle.hex.specs.Hex.{is_hex_digit};
ghost use Rattle.um_lines.specs.Fields.{digit_value};
ghost use Rattle.um_lines.specs.HexPlaces.{are_hex_values};

use std::simd::prelude::*;

/// The values of sixteen hexadecimal digits, above 15 for any other octet.
#[derive(Clone, Copy)]
pub(crate) struct HexValues {
    pub(crate) lanes: u8x16,
}

impl HexValues {
    /// Sixteen zeros, with which a series of `maxima` begins.
    #[inline(always)]
    pub(crate) fn new() -> HexValues
        ensures count { length result.lanes ≡ 16 }
        ensures test { are_hex_values result.lanes ≡ true }
    {
        HexValues {
            lanes: u8x16::splat(0),
        }
    }

    /// Returns the values of sixteen octets of `digits`, from index `from` on.
    #[inline(always)]
    pub(crate) fn from_digits(digits: &[u8], from: usize) -> HexValues
        requires { from + 16 ≤ length digits.now }
        ensures count { length result.lanes ≡ 16 }
        ensures test { are_hex_values result.lanes ≡ list_all is_hex_digit (take 16 (drop from digits.now)) }
        ensures values { IsTrue (list_all is_hex_digit (take 16 (drop from digits.now)))
            → result.lanes ≡ map digit_value (take 16 (drop from digits.now)) }
    {
        // `decimal` is 240 to 249 for `0` to `9`, which 16 more makes 0 to 9; `letter` is 0 to 5 for letters, which 10 more makes 10 to 15.
        // For all other octets each sum is above 15, so the lesser of the two is the value, without a branch.
        let octets = u8x16::from_slice(&digits[from..from + 16]);
        let decimal = (octets + u8x16::splat(198)).saturating_sub(u8x16::splat(6));
        let letter = (octets & u8x16::splat(223)) + u8x16::splat(191);
        HexValues {
            lanes: (decimal + u8x16::splat(16)).simd_min(
                letter.simd_min(u8x16::splat(245)) + u8x16::splat(10),
            ),
        }
    }

    /// Returns, for each index, the greater of the values of `self` and `other` at this index. A value above 15 stays, so that one test at
    /// the end finds any octet that is no digit.
    #[inline(always)]
    pub(crate) fn maxima(self, other: HexValues) -> HexValues
        requires count { length self.lanes ≡ 16 }
        requires other { length other.lanes ≡ 16 }
        ensures count { length result.lanes ≡ 16 }
        ensures test { are_hex_values result.lanes ≡ (are_hex_values self.lanes && are_hex_values other.lanes) }
    {
        HexValues {
            lanes: self.lanes.simd_max(other.lanes),
        }
    }

    #[inline(always)]
    pub(crate) fn are_digits(self) -> bool
        requires { length self.lanes ≡ 16 }
        ensures { result ≡ are_hex_values self.lanes }
    {
        self.lanes.simd_gt(u8x16::splat(15)).to_bitmask() == 0
    }

    /// Joins these values, followed by those of `second_half`, in pairs into octets, high digit first.
    #[inline(always)]
    pub(crate) fn join_pairs(self, second_half: HexValues) -> [u8; 16]
        requires front { length self.lanes ≡ 16 }
        requires back { length second_half.lanes ≡ 16 }
        ensures { (i : ℕ) → i < 16 → slice_index result i
            ≡ (16 * slice_index (self.lanes ++ second_half.lanes) (2 * i) + slice_index (self.lanes ++ second_half.lanes) (2 * i + 1)) %
            256 }
    {
        let (high, low) = self.lanes.deinterleave(second_half.lanes);
        (high * u8x16::splat(16) + low).to_array()
    }
}
