//! One step of the Viterbi algorithm (add, compare, select) for all sixteen states at once, in 16-bit lanes. On a tie, bit 0 wins.
//!
//! One vector holds the even states and another the odd states, each in the bit-reversed order of the state's upper three bits. Bit 0
//! always leads to an even state and bit 1 to an odd one, so a step adds whole vectors; at its end, two interleavings restore the order.
//! Path metrics are between -1,024 and 58,368. A lane holds the metric minus 31,000, so all of them fit in 16 bits without rescaling.

ghost use Rattle.std.specs.Prelude.{◌≡◌, ℕ, ◌<◌, List, ℤ, pos, slice_index};
ghost use Rattle.trellis_decode.specs.Trellis.{IsDecision, candidate_metric};
ghost use Rattle.lanes.specs.Lanes.{lane};
ghost use Rattle.trellis_decode.specs.Candidates.{AreAcsCandidates};
ghost use Rattle.trellis_decode.specs.AcsLanes.{AreBranchMetrics, AreInt16, AreDecisionLanes, lane_decisions, HasBranchMetrics};
ghost use Rattle.trellis_decode.specs.AcsLanes.{HaveHeadroom16, path_metric};

use crate::acs_lanes::{
    EightDecisions, EightLanes, add_branch_metrics, decisions_from_candidates,
    interleave_first_lanes, interleave_last_lanes, lane_maxima, subtract_branch_metrics,
};
use std::simd::prelude::*;

/// The path metrics of the sixteen states, each minus 31,000: they lie between -1,024 and 58,368, so lowered they all fit 16 bits without
/// rescaling. In bit-reversed order the next states after bit 0 and after bit 1 are whole vectors; in natural order the compiler makes
/// blends.
#[derive(Clone, Copy)]
pub(crate) struct PathMetrics {
    /// The path metrics of the even states, in the bit-reversed order of their upper three bits.
    pub(crate) even_states: EightLanes,
    /// The path metrics of the odd states, in the bit-reversed order of their upper three bits.
    pub(crate) odd_states: EightLanes,
}

impl PathMetrics {
    /// The path metrics after the last bit: 0 in every state.
    pub(crate) fn new() -> PathMetrics
        ensures each { (s : ℕ) → s < 16 → lane (path_metric result) s ≡ pos 0 }
        ensures even { AreInt16 result.even_states.lanes }
        ensures odd { AreInt16 result.odd_states.lanes }
    {
        let lanes = EightLanes {
            lanes: i16x8::splat(-31_000),
        };
        PathMetrics {
            even_states: lanes,
            odd_states: lanes,
        }
    }

    pub(crate) fn metric_of_state_0(self) -> i32
        requires { AreInt16 self.even_states.lanes }
        ensures { result ≡ lane (path_metric self) 0 }
    {
        i32::from(self.even_states.lanes.to_array()[0]) + 31_000
    }
}

/// The candidate metrics of all states: for each state, the path metric of the best word that begins with bit 0 and of the best word that
/// begins with bit 1, each minus 31,000. The `low_states` vectors hold states 0 to 7 and the `high_states` vectors states 8 to 15, both in
/// bit-reversed order.
#[derive(Clone, Copy)]
pub(crate) struct Candidates {
    pub(crate) low_states_bit_0: EightLanes,
    pub(crate) low_states_bit_1: EightLanes,
    pub(crate) high_states_bit_0: EightLanes,
    pub(crate) high_states_bit_1: EightLanes,
}

/// The result of one trellis step. The steps run backward: from the path metrics after a bit to the metrics before it.
#[derive(Clone, Copy)]
pub(crate) struct TrellisStep {
    pub(crate) candidates: Candidates,
    /// The path metrics before the bit.
    pub(crate) values: PathMetrics,
    /// The decisions in the states 0 to 7, in bit-reversed order.
    pub(crate) low_decisions: EightDecisions,
    /// The decisions in the states 8 to 15, in bit-reversed order.
    pub(crate) high_decisions: EightDecisions,
}

impl TrellisStep {
    /// Computes the step over one bit: `after` holds the path metrics after the bit, and `branch_metrics` its branch metrics.
    pub(crate) fn new(after: PathMetrics, branch_metrics: EightLanes) -> TrellisStep
        requires even { HaveHeadroom16 after.even_states.lanes }
        requires odd { HaveHeadroom16 after.odd_states.lanes }
        requires branch_metrics { AreBranchMetrics branch_metrics.lanes }
        ensures each { (pair : List ℤ) → HasBranchMetrics branch_metrics.lanes pair → (s : ℕ) → s < 16 →
            IsDecision (path_metric after) pair s
            (lane (path_metric result.values) s)
            (slice_index (lane_decisions result.low_decisions.lanes result.high_decisions.lanes) s) }
        ensures candidates { AreAcsCandidates after.even_states.lanes after.odd_states.lanes branch_metrics.lanes result.candidates }
        ensures low { AreDecisionLanes result.low_decisions.lanes }
        ensures high { AreDecisionLanes result.high_decisions.lanes }
        ensures even { AreInt16 result.values.even_states.lanes }
        ensures odd { AreInt16 result.values.odd_states.lanes }
    {
        let low_states_bit_0 = add_branch_metrics(after.even_states, branch_metrics);
        let low_states_bit_1 = subtract_branch_metrics(after.odd_states, branch_metrics);
        let high_states_bit_0 = subtract_branch_metrics(after.even_states, branch_metrics);
        let high_states_bit_1 = add_branch_metrics(after.odd_states, branch_metrics);
        let low = lane_maxima(low_states_bit_0, low_states_bit_1);
        let high = lane_maxima(high_states_bit_0, high_states_bit_1);
        let values = PathMetrics {
            even_states: interleave_first_lanes(low, high),
            odd_states: interleave_last_lanes(low, high),
        };
        TrellisStep {
            candidates: Candidates {
                low_states_bit_0,
                low_states_bit_1,
                high_states_bit_0,
                high_states_bit_1,
            },
            values,
            low_decisions: decisions_from_candidates(low_states_bit_0, low_states_bit_1),
            high_decisions: decisions_from_candidates(high_states_bit_0, high_states_bit_1),
        }
    }
}

/// Returns the path metrics before a tail bit, from those after it. A tail bit is always 0, so nothing is compared.
pub(crate) fn tail_step(metrics_after: PathMetrics, branch_metrics: EightLanes) -> PathMetrics
    requires even { HaveHeadroom16 metrics_after.even_states.lanes }
    requires branch_metrics { AreBranchMetrics branch_metrics.lanes }
    ensures each { (pair : List ℤ) → HasBranchMetrics branch_metrics.lanes pair → (s : ℕ) → s < 16 →
        lane (path_metric result) s ≡ candidate_metric (path_metric metrics_after) pair s 0 }
    ensures even { AreInt16 result.even_states.lanes }
    ensures odd { AreInt16 result.odd_states.lanes }
{
    let low = add_branch_metrics(metrics_after.even_states, branch_metrics);
    let high = subtract_branch_metrics(metrics_after.even_states, branch_metrics);
    PathMetrics {
        even_states: interleave_first_lanes(low, high),
        odd_states: interleave_last_lanes(low, high),
    }
}
