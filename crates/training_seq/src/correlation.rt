//! The correlation of soft bits with a training sequence, as a sum of products.
ghost use Rattle.std.specs.Prelude.{◌≡◌, ◌≤◌, ℕ, length, All, neg_ℤ, pos, ◌+ℤ◌, ◌*ℤ◌, ◌≤ℤ◌};
ghost use Rattle.bit_blocks.specs.SoftValues.{likelihood};
ghost use Rattle.training_seq.specs.Ranges.{IsMagnitudeWithin};
ghost use Rattle.training_seq.specs.Sequences.{midamble};
ghost use Rattle.training_seq.specs.Sums.{soft_bit_at};

use crate::sequences::all_tsc_signs_at;
use std::simd::prelude::*;

/// Returns the correlation of 26 soft bits with a training sequence: the sum of the soft bits, each negated where the sequence has a 1.
pub fn correlate(soft: &[i8], tsc: u8) -> i32
    requires count { length soft.now ≡ 26 }
    requires tsc_in_range { tsc ≤ 7 }
    ensures { result ≡ likelihood soft.now (midamble tsc) }
{
    i32::from(correlate_sums(&widen_to_i16(soft))[tsc as usize])
}

fn widen_to_i16(soft: &[i8]) -> [i16; 26]
    requires { length soft.now ≡ 26 }
    ensures value { result ≡ soft.now }
    ensures small { All (IsMagnitudeWithin 1024) result }
{
    let mut wide = [0; 26];
    for (i, value) in soft.iter().enumerate() {
        wide[i] = i16::from(*value);
    }
    wide
}

pub(crate) fn correlate_sums(sums: &[i16; 26]) -> [i16; 8]
    requires small { All (IsMagnitudeWithin 1024) sums.now }
    ensures value { (tsc : ℕ) → tsc ≤ 7 → soft_bit_at result tsc ≡ likelihood sums.now (midamble tsc) }
    ensures within { (tsc : ℕ) → tsc ≤ 7 → IsMagnitudeWithin 26624 (soft_bit_at result tsc) }
{
    let mut totals = CorrelationTotals {
        lanes: i16x8::splat(0),
    };
    for i in 0..26 {
        totals = totals.add_product(sums[i], all_tsc_signs_at(i));
    }
    totals.lanes.to_array()
}

#[derive(Clone, Copy)]
struct CorrelationTotals {
    lanes: i16x8,
}

impl CorrelationTotals {
    // A function of its own, so that one clause bounds each lane.
    #[inline]
    fn add_product(self, value: i16, signs: &[i16; 8]) -> CorrelationTotals
        requires count { length self.lanes ≡ 8 }
        requires totals { (tsc : ℕ) → tsc ≤ 7 → IsMagnitudeWithin 25600 (soft_bit_at self.lanes tsc) }
        requires value { IsMagnitudeWithin 1024 value }
        requires signs { (tsc : ℕ) → tsc ≤ 7 → IsMagnitudeWithin 1 (soft_bit_at signs.now tsc) }
        ensures count { length result.lanes ≡ 8 }
        ensures each { (tsc : ℕ) → tsc ≤ 7 →
            soft_bit_at result.lanes tsc ≡ soft_bit_at self.lanes tsc +ℤ value *ℤ soft_bit_at signs.now tsc }
    {
        CorrelationTotals {
            lanes: self.lanes + i16x8::splat(value) * i16x8::from_array(*signs),
        }
    }
}

pub(crate) fn times_sign(value: i16, sign: i16) -> i16
    requires small { IsMagnitudeWithin 1024 value }
    requires sign { IsMagnitudeWithin 1 sign }
    ensures value { result ≡ value *ℤ sign }
    ensures within { IsMagnitudeWithin 1024 result }
{
    value * sign
}
