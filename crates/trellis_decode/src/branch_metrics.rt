//! The branch metrics of four bits, computed from their eight soft bits.

ghost use Rattle.std.specs.Prelude.{◌≡◌, ℕ, ◌*◌, ◌<◌, length, slice_index_or, take, drop};
ghost use Rattle.trellis_decode.specs.SignedOctets.{AreSignedOctets};
ghost use Rattle.trellis_decode.specs.AcsLanes.{AreBranchMetrics, HasBranchMetrics};

use crate::acs_lanes::EightLanes;
use std::simd::prelude::*;

/// For each of four information bits, returns the branch metrics of the value 0 in states 0 to 7, in bit-reversed order, computed from the
/// pair of soft bits of that bit.
///
/// The other branch metrics are negations of these: the value 1 has the negated metric in the same state, and the value 0 has it in the
/// state whose number is 8 higher.
#[inline]
pub(crate) fn four_branch_metrics(soft: &[i8]) -> [EightLanes; 4]
    requires count { length soft.now ≡ 8 }
    requires octets { AreSignedOctets soft.now }
    ensures has { (k : ℕ) (d : EightLanes) → k < 4 → HasBranchMetrics (slice_index_or result k d).lanes
        (take 2 (drop (2 * k) soft.now)) }
    ensures branch_metrics { (k : ℕ) (d : EightLanes) → k < 4 → AreBranchMetrics (slice_index_or result k d).lanes }
{
    let values = widen_to_i16(soft);
    let firsts = values.swizzle::<8>([0, 0, 2, 2, 4, 4, 6, 6]);
    let seconds = values.swizzle::<8>([1, 1, 3, 3, 5, 5, 7, 7]);
    let plain = (firsts + seconds).shuffle::<8>(firsts - seconds, [0, 9, 2, 11, 4, 13, 6, 15]);
    let negated = -plain;
    let early = plain.shuffle::<8>(negated, [0, 8, 1, 9, 2, 10, 3, 11]);
    let late = plain.shuffle::<8>(negated, [4, 12, 5, 13, 6, 14, 7, 15]);
    [
        EightLanes {
            lanes: early.swizzle::<8>([0, 1, 0, 1, 2, 3, 2, 3]),
        },
        EightLanes {
            lanes: early.swizzle::<8>([4, 5, 4, 5, 6, 7, 6, 7]),
        },
        EightLanes {
            lanes: late.swizzle::<8>([0, 1, 0, 1, 2, 3, 2, 3]),
        },
        EightLanes {
            lanes: late.swizzle::<8>([4, 5, 4, 5, 6, 7, 6, 7]),
        },
    ]
}

fn widen_to_i16(soft: &[i8]) -> i16x8
    requires count { length soft.now ≡ 8 }
    requires octets { AreSignedOctets soft.now }
    ensures { result ≡ soft.now }
{
    i8x8::from_slice(soft).cast::<i16>()
}
