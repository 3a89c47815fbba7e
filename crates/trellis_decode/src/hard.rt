//! The Viterbi algorithm for hard bits: soft bits that are all 127 or -127.
//!
//! All metrics are multiples of 254, and path metrics are between -4 * 254 and 228 * 254. Divided by 254 and reduced by 120, they fit in
//! signed octets, so one vector holds the path metrics of all sixteen states. Each state has the same lane as in a survivor map.

ghost use Rattle.std.specs.Prelude.{◌≡◌, ℕ, ◌+◌, ◌*◌, ◌/◌, ◌%◌, ◌^◌, ◌<◌, ◌≤◌, ℤ, List, []};
ghost use Rattle.std.specs.Prelude.{◌∷◌, ◌+ℤ◌, ◌-ℤ◌, IsTrue, int_lt, if◌then◌else◌};
ghost use Rattle.std.specs.Prelude.{length, slice_index, slice_index_or, replicate, take, drop, ◌++◌};
ghost use Rattle.std.specs.Int.{w8};
ghost use Rattle.std.specs.List.{All};
ghost use Rattle.conv_code.specs.Code.{encoding};
ghost use Rattle.conv_code.specs.Likelihood.{IsMostLikely, likelihood};
ghost use Rattle.trellis_decode.specs.Hard.{AreInt8, DifferByAtMost, HaveMagnitudeAtMostOne, HasHardBranchMetrics, HaveHeadroom8};
ghost use Rattle.trellis_decode.specs.Hard.{IsHardBit, hard_lane_metrics, lane_after_bit_1, sign_bit_of, lane_after_bit_0};
ghost use Rattle.lanes.specs.Lanes.{DifferencesFit, IsLanewise, greater, lane};
ghost use Rattle.trellis_decode.specs.SignedOctets.{AreSignedOctets};
ghost use Rattle.trellis_decode.specs.Trellis.{IsSurvivor};
ghost use Rattle.trellis_decode.specs.AcsLanes.{lane_of_state};
ghost use Rattle.trellis_decode.specs.SurvivorPaths.{AreMetricsWithin, AreSurvivors, HoldLaneNumbersFromIndex, survivor_traceback};

use crate::survivors::trace_back_survivors;
use conv_code::ENCODER_INPUT_BITS;
use std::simd::prelude::*;

/// One number for each state, in the lane that the state has in a survivor map. The metrics of hard bits are multiples of 254, so all
/// sixteen fit one vector of 8-bit lanes.
#[derive(Clone, Copy)]
pub(crate) struct StateMetrics {
    pub(crate) lanes: i8x16,
}

/// The survivors of all states over a few bits, and the path metrics before these bits.
#[derive(Clone, Copy)]
pub(crate) struct HardSurvivors {
    pub(crate) values: StateMetrics,
    /// The survivor map: the lane of each state holds the lane of the state that its survivor leads to at the end of these bits.
    pub(crate) survivor_map: u8x16,
}

// The branch metric of bit 0 in each state, divided by 254, for each of the four combinations of signs of the two soft bits.
const BOTH_POSITIVE_BRANCH_METRICS: [i8; 16] = [1, -1, 1, -1, 0, 0, 0, 0, -1, 1, -1, 1, 0, 0, 0, 0];

const FIRST_NEGATIVE_BRANCH_METRICS: [i8; 16] = [
    0, 0, 0, 0, -1, 1, -1, 1, 0, 0, 0, 0, 1, -1, 1, -1,
];

const SECOND_NEGATIVE_BRANCH_METRICS: [i8; 16] = [
    0, 0, 0, 0, 1, -1, 1, -1, 0, 0, 0, 0, -1, 1, -1, 1,
];

const BOTH_NEGATIVE_BRANCH_METRICS: [i8; 16] = [-1, 1, -1, 1, 0, 0, 0, 0, 1, -1, 1, -1, 0, 0, 0, 0];

/// The branch metrics of the first of two information bits, for each combination of the signs of their four soft bits. The signs of four
/// soft bits select the branch metrics of two positions at once.
static FIRST_BIT_BRANCH_METRICS: [[i8; 16]; 16] = [
    BOTH_POSITIVE_BRANCH_METRICS,
    FIRST_NEGATIVE_BRANCH_METRICS,
    SECOND_NEGATIVE_BRANCH_METRICS,
    BOTH_NEGATIVE_BRANCH_METRICS,
    BOTH_POSITIVE_BRANCH_METRICS,
    FIRST_NEGATIVE_BRANCH_METRICS,
    SECOND_NEGATIVE_BRANCH_METRICS,
    BOTH_NEGATIVE_BRANCH_METRICS,
    BOTH_POSITIVE_BRANCH_METRICS,
    FIRST_NEGATIVE_BRANCH_METRICS,
    SECOND_NEGATIVE_BRANCH_METRICS,
    BOTH_NEGATIVE_BRANCH_METRICS,
    BOTH_POSITIVE_BRANCH_METRICS,
    FIRST_NEGATIVE_BRANCH_METRICS,
    SECOND_NEGATIVE_BRANCH_METRICS,
    BOTH_NEGATIVE_BRANCH_METRICS,
];

/// The branch metrics of the second of two information bits, for each combination of the signs of their four soft bits.
static SECOND_BIT_BRANCH_METRICS: [[i8; 16]; 16] = [
    BOTH_POSITIVE_BRANCH_METRICS,
    BOTH_POSITIVE_BRANCH_METRICS,
    BOTH_POSITIVE_BRANCH_METRICS,
    BOTH_POSITIVE_BRANCH_METRICS,
    FIRST_NEGATIVE_BRANCH_METRICS,
    FIRST_NEGATIVE_BRANCH_METRICS,
    FIRST_NEGATIVE_BRANCH_METRICS,
    FIRST_NEGATIVE_BRANCH_METRICS,
    SECOND_NEGATIVE_BRANCH_METRICS,
    SECOND_NEGATIVE_BRANCH_METRICS,
    SECOND_NEGATIVE_BRANCH_METRICS,
    SECOND_NEGATIVE_BRANCH_METRICS,
    BOTH_NEGATIVE_BRANCH_METRICS,
    BOTH_NEGATIVE_BRANCH_METRICS,
    BOTH_NEGATIVE_BRANCH_METRICS,
    BOTH_NEGATIVE_BRANCH_METRICS,
];

/// Returns whether all soft bits are 127 or -127. The loop has no early exit, so the compiler can vectorize it.
pub(crate) fn are_hard_bits(soft: &[i8]) -> bool
    ensures { IsTrue result → All IsHardBit soft.now }
{
    let mut all = true;
    for value in soft {
        let one = *value;
        all &= is_hard_bit(one);
    }
    all
}

#[inline]
fn is_hard_bit(value: i8) -> bool
    ensures { IsTrue result → IsHardBit value }
{
    value == 127 || value == -127
}

/// Writes the most likely encoder input for the hard bits `soft` to `u`, and returns its path metric.
pub(crate) fn decode_hard(soft: &[i8], u: &mut [u8]) -> i32
    requires count { length soft.now ≡ 2 * length u.old }
    requires whole { length u.old % 4 ≡ 0 }
    requires at_least { 5 ≤ length u.old }
    requires at_most { length u.old ≤ ENCODER_INPUT_BITS }
    requires hard { All IsHardBit soft.now }
    ensures best { IsMostLikely soft.now u.new }
    ensures value { result ≡ likelihood soft.now (encoding u.new) }
{
    let mut survivors = [[0; 16]; 57];
    let survivors = &mut survivors[..u.len() / 4];
    let values = fill_hard_survivors(soft, survivors);
    trace_back_survivors(survivors, 0, u);
    values.metric_of_state_0()
}

impl StateMetrics {
    /// The path metric of state 0: the number in its lane plus 120, times 254.
    fn metric_of_state_0(self) -> i32
        requires { AreInt8 self.lanes }
        ensures { result ≡ lane (hard_lane_metrics self.lanes) 0 }
    {
        254 * (i32::from(self.lanes.to_array()[0]) + 120)
    }
}

/// Writes a survivor map for each group of four bits, from the last group to the first, and returns the path metrics before the first bit.
///
/// The last four bits are the tail, all 0.
fn fill_hard_survivors(soft: &[i8], survivors: &mut [[u8; 16]]) -> StateMetrics
    requires count { length soft.now ≡ 8 * length survivors.old }
    requires at_least { 1 ≤ length survivors.old }
    requires at_most { length survivors.old ≤ 57 }
    requires hard { All IsHardBit soft.now }
    ensures best { (s : ℕ) → s < 16 → IsSurvivor s (survivor_traceback survivors.new (lane_of_state s)) soft.now (lane
        (hard_lane_metrics result.lanes) s) }
    ensures lanes { AreInt8 result.lanes }
    ensures at_least { 1 ≤ length survivors.new }
    ensures maps { HoldLaneNumbersFromIndex 0 survivors.new }
{
    let last = survivors.len() - 1;
    survivors[last] = [0; 16];
    let mut values = hard_path_metrics_before_tail(&soft[8 * last..]);
    for group in (0..last).rev() {
        let walk = extend_hard_survivors(values, &soft[8 * group..8 * group + 8]);
        values = walk.values;
        survivors[group] = walk.survivor_map.to_array();
    }
    values
}

/// Returns the path metrics before the four tail bits, from the eight soft bits of the tail.
fn hard_path_metrics_before_tail(soft: &[i8]) -> StateMetrics
    requires count { length soft.now ≡ 8 }
    requires hard { All IsHardBit soft.now }
    ensures best { (s : ℕ) → s < 16 → IsSurvivor s (replicate 4 0) soft.now (lane (hard_lane_metrics result.lanes) s) }
    ensures lanes { AreInt8 result.lanes }
{
    let branch_metrics = hard_branch_metrics(soft);
    let mut values = StateMetrics {
        lanes: i8x16::splat(-120),
    };
    for k in (0..4).rev() {
        values = bit_0_candidates(values, branch_metrics[k]);
    }
    values
}

/// Returns the survivors over four bits, and the path metrics before these bits. `after` holds the path metrics after them.
#[inline]
fn extend_hard_survivors(after: StateMetrics, soft: &[i8]) -> HardSurvivors
    requires count { length soft.now ≡ 8 }
    requires hard { All IsHardBit soft.now }
    requires within { AreMetricsWithin 58368 (hard_lane_metrics after.lanes) }
    requires lanes { AreInt8 after.lanes }
    requires near { DifferByAtMost 8 after.lanes }
    ensures walk { AreSurvivors (hard_lane_metrics after.lanes) (hard_lane_metrics result.values.lanes) result.survivor_map soft.now }
    ensures within { AreMetricsWithin 59392 (hard_lane_metrics result.values.lanes) }
    ensures lanes { AreInt8 result.values.lanes }
    ensures count { length result.survivor_map ≡ 16 }
{
    let branch_metrics = hard_branch_metrics(soft);
    let mut walk = HardSurvivors {
        values: after,
        survivor_map: u8x16::from_array([0, 1, 2, 3, 4, 5, 6, 7, 8, 9, 10, 11, 12, 13, 14, 15]),
    };
    for k in (0..4).rev() {
        walk = walk.step(branch_metrics[k]);
    }
    walk
}

impl HardSurvivors {
    /// Extends the survivors backward by one bit, given the branch metrics of this bit.
    #[inline]
    fn step(self, branch_metrics: StateMetrics) -> HardSurvivors
        requires headroom { HaveHeadroom8 self.values.lanes }
        requires count { length self.survivor_map ≡ 16 }
        requires branch_metrics { HaveMagnitudeAtMostOne branch_metrics.lanes }
        requires near { DifferByAtMost 100 self.values.lanes }
        ensures walk { (pair : List ℤ) → HasHardBranchMetrics branch_metrics.lanes pair → (after soft : List ℤ) →
            AreSurvivors after (hard_lane_metrics self.values.lanes) self.survivor_map soft →
            AreSurvivors after (hard_lane_metrics result.values.lanes) result.survivor_map (pair ++ soft) }
        ensures within { (pair : List ℤ) → HasHardBranchMetrics branch_metrics.lanes pair → AreSignedOctets pair → (most : ℕ) →
            AreMetricsWithin most (hard_lane_metrics self.values.lanes) →
            AreMetricsWithin (most + 256) (hard_lane_metrics result.values.lanes) }
        ensures near { (most : ℕ) → DifferByAtMost most self.values.lanes → DifferByAtMost (most + 2) result.values.lanes }
        ensures lanes { AreInt8 result.values.lanes }
        ensures count { length result.survivor_map ≡ 16 }
    {
        let zero = bit_0_candidates(self.values, branch_metrics);
        let one = bit_1_candidates(self.values, branch_metrics);
        let values = larger_lanes(zero, one);
        let losses = subtract_hard_lanes(zero, values);
        let none = StateMetrics {
            lanes: i8x16::splat(0),
        };
        HardSurvivors {
            values,
            survivor_map: extend_survivor_map_by_metrics(self.survivor_map, losses, none),
        }
    }
}

/// The candidate metrics of bit 0: for each state, the path metric of its best word that begins with bit 0.
#[inline]
fn bit_0_candidates(metrics_after: StateMetrics, branch_metrics: StateMetrics) -> StateMetrics
    requires headroom { HaveHeadroom8 metrics_after.lanes }
    requires branch_metrics { HaveMagnitudeAtMostOne branch_metrics.lanes }
    ensures each { (k : ℕ) → k < 16 → lane result.lanes k ≡
        lane metrics_after.lanes (lane_after_bit_0 k) +ℤ lane branch_metrics.lanes k }
    ensures lanes { AreInt8 result.lanes }
{
    let next = metrics_after
        .lanes
        .swizzle::<16>([0, 8, 1, 9, 2, 10, 3, 11, 0, 8, 1, 9, 2, 10, 3, 11]);
    StateMetrics {
        lanes: next + branch_metrics.lanes,
    }
}

/// The candidate metrics of bit 1: for each state, the path metric of its best word that begins with bit 1.
#[inline]
fn bit_1_candidates(metrics_after: StateMetrics, branch_metrics: StateMetrics) -> StateMetrics
    requires headroom { HaveHeadroom8 metrics_after.lanes }
    requires branch_metrics { HaveMagnitudeAtMostOne branch_metrics.lanes }
    ensures each { (k : ℕ) → k < 16 → lane result.lanes k ≡
        lane metrics_after.lanes (lane_after_bit_1 k) -ℤ lane branch_metrics.lanes k }
    ensures lanes { AreInt8 result.lanes }
{
    let next = metrics_after
        .lanes
        .swizzle::<16>([4, 12, 5, 13, 6, 14, 7, 15, 4, 12, 5, 13, 6, 14, 7, 15]);
    StateMetrics {
        lanes: next - branch_metrics.lanes,
    }
}

#[inline]
fn larger_lanes(zero: StateMetrics, one: StateMetrics) -> StateMetrics
    requires zero { AreInt8 zero.lanes }
    requires one { AreInt8 one.lanes }
    ensures { IsLanewise w8 16 greater zero.lanes one.lanes result.lanes }
{
    StateMetrics {
        lanes: zero.lanes.simd_max(one.lanes),
    }
}

/// The differences of the lanes. The sign of what a candidate metric of bit 0 lacks to the greater one tells which bit is decided, and the
/// compiler selects lanes by signs in fewer instructions than by a comparison. This difference fits 8 bits, because any two states merge
/// after four equal bits.
#[inline]
fn subtract_hard_lanes(first: StateMetrics, second: StateMetrics) -> StateMetrics
    requires first { AreInt8 first.lanes }
    requires second { AreInt8 second.lanes }
    requires fits { DifferencesFit w8 16 first.lanes second.lanes }
    ensures { IsLanewise w8 16 ◌-ℤ◌ first.lanes second.lanes result.lanes }
{
    StateMetrics {
        lanes: first.lanes - second.lanes,
    }
}

/// Extends a survivor map backward by one bit: the survivor of each state begins with the bit that has the greater candidate metric, or
/// with bit 0 on a tie.
///
/// Its two swizzles have fixed places: one swizzle by places that are computed is sixteen loads in WebAssembly.
#[inline]
pub(crate) fn extend_survivor_map_by_metrics(
    map: u8x16,
    zero: StateMetrics,
    one: StateMetrics,
) -> u8x16
    requires map { length map ≡ 16 }
    requires zero { AreInt8 zero.lanes }
    requires one { AreInt8 one.lanes }
    ensures each { (k : ℕ) → k < 16 → slice_index result k ≡
        slice_index map (if int_lt (lane zero.lanes k) (lane one.lanes k) then lane_after_bit_1 k else lane_after_bit_0 k) }
    ensures count { length result ≡ 16 }
{
    let zeros = map.swizzle::<16>([0, 8, 1, 9, 2, 10, 3, 11, 0, 8, 1, 9, 2, 10, 3, 11]);
    let ones = map.swizzle::<16>([4, 12, 5, 13, 6, 14, 7, 15, 4, 12, 5, 13, 6, 14, 7, 15]);
    one.lanes.simd_gt(zero.lanes).select(ones, zeros)
}

/// The branch metrics of four information bits, each computed from a pair of hard bits.
#[inline(always)]
fn hard_branch_metrics(soft: &[i8]) -> [StateMetrics; 4]
    requires count { length soft.now ≡ 8 }
    requires hard { All IsHardBit soft.now }
    ensures has { (k : ℕ) (d : StateMetrics) → k < 4 →
        HasHardBranchMetrics (slice_index_or result k d).lanes (take 2 (drop (2 * k) soft.now)) }
    ensures within_one { (k : ℕ) (d : StateMetrics) → k < 4 → HaveMagnitudeAtMostOne (slice_index_or result k d).lanes }
{
    let signs = sign_bits_of_soft_bits(soft);
    [
        first_bit_branch_metrics(signs % 16),
        second_bit_branch_metrics(signs % 16),
        first_bit_branch_metrics(signs / 16 % 16),
        second_bit_branch_metrics(signs / 16 % 16),
    ]
}

/// Bit `k` of the result is 1 if soft bit `k` is negative. The vector has sixteen lanes, of which the last eight stay 0, so that computing
/// the signs takes two instructions instead of three.
#[inline(always)]
fn sign_bits_of_soft_bits(soft: &[i8]) -> u64
    requires count { length soft.now ≡ 8 }
    requires octets { AreSignedOctets soft.now }
    ensures { (k : ℕ) → k < 8 → result / 2 ^ k % 2 ≡ sign_bit_of (lane soft.now k) }
{
    let mut octets = [0; 16];
    octets[..8].copy_from_slice(soft);
    i8x16::from_array(octets)
        .simd_lt(i8x16::splat(0))
        .to_bitmask()
}

/// The branch metrics of the first of two information bits, from the signs of their four soft bits: bit `k` of `signs` is 1 if soft bit `k`
/// is negative.
#[inline(always)]
fn first_bit_branch_metrics(signs: u64) -> StateMetrics
    requires { signs < 16 }
    ensures { (p q : ℤ) → IsHardBit p → IsHardBit q → signs % 4 ≡ sign_bit_of p + 2 * sign_bit_of q →
        HasHardBranchMetrics result.lanes (p ∷ q ∷ []) }
{
    StateMetrics {
        lanes: i8x16::from_array(FIRST_BIT_BRANCH_METRICS[signs as usize]),
    }
}

/// The branch metrics of the second of two information bits, from the signs of their four soft bits.
#[inline(always)]
fn second_bit_branch_metrics(signs: u64) -> StateMetrics
    requires { signs < 16 }
    ensures { (p q : ℤ) → IsHardBit p → IsHardBit q → signs / 4 ≡ sign_bit_of p + 2 * sign_bit_of q →
        HasHardBranchMetrics result.lanes (p ∷ q ∷ []) }
{
    StateMetrics {
        lanes: i8x16::from_array(SECOND_BIT_BRANCH_METRICS[signs as usize]),
    }
}
