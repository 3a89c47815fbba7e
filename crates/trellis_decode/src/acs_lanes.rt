//! The SIMD operations of one trellis step (add, compare, select) on 16-bit lanes. The contracts describe each lane.

ghost use Rattle.std.specs.Prelude.{◌≡◌, ℕ, ◌*◌, ◌+◌, ◌/◌, ◌%◌, ◌^◌, ◌<◌, pos, negsuc, ◌+ℤ◌};
ghost use Rattle.std.specs.Prelude.{◌-ℤ◌, if◌then◌else◌, int_lt};
ghost use Rattle.std.specs.Int.{w16};
ghost use Rattle.lanes.specs.Lanes.{DifferencesFit, IsLanewise, greater, lane};
ghost use Rattle.trellis_decode.specs.AcsLanes.{AreBranchMetrics, AbsFit16Bits, AreDecisionLanes, AreInt16, HaveHeadroom16};
ghost use Rattle.trellis_decode.specs.AcsLanes.{lanes_in_state_order, interleaved_lanes};

use std::simd::prelude::*;

/// A vector of eight 16-bit numbers. It is wrapped in a struct because proofs handle a struct as a whole, but split a bare vector into its
/// lanes.
#[derive(Clone, Copy)]
pub(crate) struct EightLanes {
    pub(crate) lanes: i16x8,
}

/// Eight decisions, one per lane: -1 for bit 1, 0 for bit 0.
#[derive(Clone, Copy)]
pub(crate) struct EightDecisions {
    pub(crate) lanes: i8x8,
}

#[derive(Clone, Copy)]
pub(crate) struct SixteenLanes {
    pub(crate) lanes: i16x16,
}

pub(crate) fn add_branch_metrics(path_metrics: EightLanes, branch_metrics: EightLanes) -> EightLanes
    requires headroom16 { HaveHeadroom16 path_metrics.lanes }
    requires branch_metrics { AreBranchMetrics branch_metrics.lanes }
    ensures { IsLanewise w16 8 ◌+ℤ◌ path_metrics.lanes branch_metrics.lanes result.lanes }
{
    EightLanes {
        lanes: path_metrics.lanes + branch_metrics.lanes,
    }
}

pub(crate) fn subtract_branch_metrics(
    path_metrics: EightLanes,
    branch_metrics: EightLanes,
) -> EightLanes
    requires headroom16 { HaveHeadroom16 path_metrics.lanes }
    requires branch_metrics { AreBranchMetrics branch_metrics.lanes }
    ensures { IsLanewise w16 8 ◌-ℤ◌ path_metrics.lanes branch_metrics.lanes result.lanes }
{
    EightLanes {
        lanes: path_metrics.lanes - branch_metrics.lanes,
    }
}

pub(crate) fn lane_maxima(first: EightLanes, second: EightLanes) -> EightLanes
    requires first { AreInt16 first.lanes }
    requires second { AreInt16 second.lanes }
    ensures { IsLanewise w16 8 greater first.lanes second.lanes result.lanes }
{
    EightLanes {
        lanes: first.lanes.simd_max(second.lanes),
    }
}

/// Interleaves the first four lanes of `first` and `second`.
pub(crate) fn interleave_first_lanes(first: EightLanes, second: EightLanes) -> EightLanes
    requires first { AreInt16 first.lanes }
    requires second { AreInt16 second.lanes }
    ensures each { result.lanes ≡ interleaved_lanes first.lanes second.lanes 0 1 2 3 }
    ensures lanes { AreInt16 result.lanes }
{
    EightLanes {
        lanes: first
            .lanes
            .shuffle::<8>(second.lanes, [0, 8, 1, 9, 2, 10, 3, 11]),
    }
}

/// Interleaves the last four lanes of `first` and `second`.
pub(crate) fn interleave_last_lanes(first: EightLanes, second: EightLanes) -> EightLanes
    requires first { AreInt16 first.lanes }
    requires second { AreInt16 second.lanes }
    ensures each { result.lanes ≡ interleaved_lanes first.lanes second.lanes 4 5 6 7 }
    ensures lanes { AreInt16 result.lanes }
{
    EightLanes {
        lanes: first
            .lanes
            .shuffle::<8>(second.lanes, [4, 12, 5, 13, 6, 14, 7, 15]),
    }
}

/// Returns -1 in each lane where `bit_1` is greater than `bit_0`, and 0 in the others.
pub(crate) fn decisions_from_candidates(bit_0: EightLanes, bit_1: EightLanes) -> EightDecisions
    requires first { AreInt16 bit_0.lanes }
    requires second { AreInt16 bit_1.lanes }
    ensures each { (k : ℕ) → k < 8 → lane result.lanes k ≡
        (if int_lt (lane bit_0.lanes k) (lane bit_1.lanes k) then negsuc 0 else pos 0) }
    ensures lanes { AreDecisionLanes result.lanes }
{
    EightDecisions {
        lanes: bit_1.lanes.simd_gt(bit_0.lanes).cast::<i8>().to_simd(),
    }
}

pub(crate) fn subtract_lanes(minuend: EightLanes, subtrahend: EightLanes) -> EightLanes
    requires first { AreInt16 minuend.lanes }
    requires second { AreInt16 subtrahend.lanes }
    requires fits_16_bits { DifferencesFit w16 8 minuend.lanes subtrahend.lanes }
    ensures { IsLanewise w16 8 ◌-ℤ◌ minuend.lanes subtrahend.lanes result.lanes }
{
    EightLanes {
        lanes: minuend.lanes - subtrahend.lanes,
    }
}

/// Puts the lanes in state order: `low_states` holds the states 0 to 7 and `high_states` the states 8 to 15, both in bit-reversed order.
pub(crate) fn to_state_order(low_states: EightLanes, high_states: EightLanes) -> SixteenLanes
    requires low_lanes { AreInt16 low_states.lanes }
    requires high_lanes { AreInt16 high_states.lanes }
    ensures { result.lanes ≡ lanes_in_state_order low_states.lanes high_states.lanes }
{
    SixteenLanes {
        lanes: low_states.lanes.shuffle::<16>(
            high_states.lanes,
            [0, 4, 2, 6, 1, 5, 3, 7, 8, 12, 10, 14, 9, 13, 11, 15],
        ),
    }
}

pub(crate) fn absolute_values(values: SixteenLanes) -> SixteenLanes
    requires { AbsFit16Bits values.lanes }
    ensures each { (s : ℕ) → s < 16 → lane result.lanes s ≡
        (if int_lt (lane values.lanes s) (pos 0 -ℤ lane values.lanes s) then pos 0 -ℤ lane values.lanes s else lane values.lanes s) }
    ensures lanes { AbsFit16Bits result.lanes }
{
    SixteenLanes {
        lanes: values.lanes.abs(),
    }
}

/// Bit `s` of the result is 1 if lane `s` is negative.
pub(crate) fn signs(a: SixteenLanes) -> u16
    requires { AbsFit16Bits a.lanes }
    ensures { (s : ℕ) → s < 16 → result / 2 ^ s % 2 ≡ (if int_lt (lane a.lanes s) (pos 0) then 1 else 0) }
{
    a.lanes.simd_lt(i16x16::splat(0)).to_bitmask() as u16
}
